// Taking the records of a text one after another.
ghost use Rattle.std.specs.Prelude.{◌≡◌, ◌<◌, ◌^◌, ◌++◌, ◌+◌, ◌∷◌, [], ℕ, Bool, true, false, List, Option, length, OnOk, IfOk, IfErr, None, Some};
ghost use Rattle.csv.specs.Records.{fields_of};
ghost use Rattle.rtrace_form.specs.Records.{Row};
ghost use Rattle.rtrace_form.specs.Takers.{IsFresh, IsFaultBehind, IsFaultOf, IsRefusedAt, StandsAt, HasTaken, HasTakenPart};

use crate::errors::{RowErr, TextErr};
use crate::fault::Fault;
use csv::{ByteRecord, Reader, ReaderBuilder};
use std::alloc::Global;

/// The most records that are taken: no memory holds so many bytes.
const MOST_RECORDS: u64 = 1 << 62;

/// What takes the records of a text of one kind, one after another. It knows what the records so far have said, as far
/// as it needs to judge the next one.
pub trait Records {
    /// What may be wrong with a record.
    type Code: Copy;

    /// What is wrong with a record after others, if anything is.
    ghost code: { List Row → Row → Option Self.Code };

    /// Whether a text may end after these records.
    ghost is_done: { List Row → Bool };

    /// What is wrong with a text that ends where it may not.
    ghost no_end: { Self.Code };

    /// It knows that these records were taken.
    ghost knows: { Self → List Row → Type 0 };

    /// How a refused record leaves it, compared with how it was before.
    ghost stays: { Self → Self → Type 0 } = { λ _ _. Unit {0} };

    /// Takes the next record.
    ///
    /// # Errors
    ///
    /// The first thing that is wrong with the record, which leaves it as `stays` says; or out of memory, and then
    /// nothing is promised of what it knows.
    fn take(&mut self, fields: &ByteRecord) -> Result<(), RowErr<Self::Code>>
        requires { (rows : List Row) × knows self.old rows × (length rows < 2 ^ 62) }
        ensures taken { OnOk result ((rows : List Row) → knows self.old rows → (code rows (fields_of fields.now) ≡ None) × knows self.new (rows ++ fields_of fields.now ∷ [])) }
        ensures bad { (cause : Self.Code) → result ≡ Err (RowErr.Bad cause) → (rows : List Row) → knows self.old rows → code rows (fields_of fields.now) ≡ Some cause }
        ensures still { (cause : Self.Code) → result ≡ Err (RowErr.Bad cause) → stays self.old self.new };

    /// Whether the text may end here.
    fn has_ended(&self) -> bool
        ensures { (rows : List Row) → knows self.now rows → result ≡ is_done rows };

    /// What is wrong with a text that ends where it may not.
    fn no_end(&self) -> Self::Code
        ensures { result ≡ no_end };
}

/// Takes all records of a text, or answers its first fault. In the end the taker knows that all of them were taken.
///
/// # Errors
///
/// The first fault of a text that is not of the taker's kind, and then the taker is where the faulty record would be
/// due (`StandsAt`); or out of memory.
pub fn take_text<T: Records>(
    alloc: Global,
    bytes: &[u8],
    taker: &mut T,
) -> Result<(), TextErr<T::Code>>
    requires { T.knows taker.old [] }
    ensures taken { OnOk result (HasTaken T.code T.is_done T.no_end T.knows bytes.now taker.new) }
    ensures bad { (fault : Fault T.Code) → result ≡ Err (TextErr.Bad fault) → IsFaultOf T.code T.is_done T.no_end bytes.now fault }
    ensures still { (fault : Fault T.Code) → result ≡ Err (TextErr.Bad fault) → StandsAt T.knows T.stays bytes.now fault.line taker.new }
{
    let mut fields = ByteRecord::new(alloc);
    match take_part(alloc, bytes, &mut fields, 1, taker) {
        Ok(line) => end_at(taker, line),
        Err(e) => Err(e),
    }
}

/// Takes all records of a part of a text, one after another into `fields`, after others that were taken, and answers
/// the number of the one that would follow. The first of them has the number `from`.
///
/// # Errors
///
/// The first fault of the part, whatever follows it; or out of memory.
pub fn take_part<T: Records>(
    alloc: Global,
    bytes: &[u8],
    fields: &mut ByteRecord,
    from: u64,
    taker: &mut T,
) -> Result<u64, TextErr<T::Code>>
    requires { (earlier : List Row) × T.knows taker.old earlier × (length earlier + 1 ≡ from) }
    ensures taken { (earlier : List Row) → T.knows taker.old earlier → length earlier + 1 ≡ from
        → IfOk result (HasTakenPart T.code T.knows earlier bytes.now taker.new) }
    ensures bad { (earlier : List Row) → T.knows taker.old earlier → length earlier + 1 ≡ from
        → (fault : Fault T.Code) → result ≡ Err (TextErr.Bad fault) → IsFaultBehind T.code T.is_done T.no_end earlier bytes.now fault }
    ensures still { (earlier : List Row) → T.knows taker.old earlier → length earlier + 1 ≡ from
        → (fault : Fault T.Code) → result ≡ Err (TextErr.Bad fault) → IsRefusedAt T.knows T.stays earlier bytes.now fault.line taker.new }
{
    let mut reader = reader_of(alloc, bytes);
    take_rows(&mut reader, fields, from, taker)
}

/// Whether a text may end here, where the taker has taken all of its records; `line` is the number of the one that
/// would follow.
///
/// # Errors
///
/// What is wrong with a text that ends there; never out of memory.
pub fn end_at<T: Records>(taker: &T, line: u64) -> Result<(), TextErr<T::Code>>
    ensures taken { OnOk result ((rows : List Row) → T.knows taker.now rows → T.is_done rows ≡ true) }
    ensures told { IfErr result (λ e. e ≡ TextErr.Bad (record { line = line; code = T.no_end })) }
    ensures bad { (fault : Fault T.Code) → result ≡ Err (TextErr.Bad fault) → (fault ≡ record { line = line; code = T.no_end }) × ((rows : List Row) → T.knows taker.now rows → T.is_done rows ≡ false) }
{
    if taker.has_ended() {
        Ok(())
    } else {
        Err(TextErr::Bad(Fault {
            line,
            code: taker.no_end(),
        }))
    }
}

// The reader of a text's records: there is no header, and records may differ in their number of fields.
fn reader_of(alloc: Global, bytes: &[u8]) -> Reader<&[u8]>
    ensures { IsFresh bytes.now result }
{
    ReaderBuilder::new()
        .has_headers(false)
        .flexible(true)
        .from_reader(alloc, bytes)
}

// Takes the records that a reader has left, each into `fields`, and answers the number of the one that would follow.
fn take_rows<T: Records>(
    reader: &mut Reader<&[u8]>,
    fields: &mut ByteRecord,
    from: u64,
    taker: &mut T,
) -> Result<u64, TextErr<T::Code>>
    requires fresh { (bytes : List ℕ) × IsFresh bytes reader.old }
    requires behind { (earlier : List Row) × T.knows taker.old earlier × (length earlier + 1 ≡ from) }
    ensures ended { (bytes : List ℕ) → IsFresh bytes reader.old → (earlier : List Row) → T.knows taker.old earlier → length earlier + 1 ≡ from
        → IfOk result (HasTakenPart T.code T.knows earlier bytes taker.new) }
    ensures bad { (bytes : List ℕ) → IsFresh bytes reader.old → (earlier : List Row) → T.knows taker.old earlier → length earlier + 1 ≡ from
        → (fault : Fault T.Code) → result ≡ Err (TextErr.Bad fault) → IsFaultBehind T.code T.is_done T.no_end earlier bytes fault }
    ensures still { (bytes : List ℕ) → IsFresh bytes reader.old → (earlier : List Row) → T.knows taker.old earlier → length earlier + 1 ≡ from
        → (fault : Fault T.Code) → result ≡ Err (TextErr.Bad fault) → IsRefusedAt T.knows T.stays earlier bytes fault.line taker.new }
{
    for line in from..MOST_RECORDS {
        let Ok(found) = reader.read_byte_record(fields) else {
            return Err(TextErr::Memory);
        };
        if !found {
            return Ok(line);
        }
        if let Err(e) = taker.take(fields) {
            return Err(e.at(line));
        }
    }
    Err(TextErr::Memory)
}
