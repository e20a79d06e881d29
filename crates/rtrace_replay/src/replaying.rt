// The report of an event list, made in one pass.
ghost use Rattle.std.specs.Prelude.{◌≡◌, ◌≤◌, ◌++◌, ◌∷◌, [], ◌<◌, ◌^◌, ℕ, List, false, true, length, OnOk, OnErr, IfOk, IsSome, Some, None};
ghost use Rattle.csv.specs.Records.{fields_of};
ghost use Rattle.rexpand.specs.Groups.{ReadGroups};
ghost use Rattle.rtrace_form.specs.Faults.{is_ended};
ghost use Rattle.rtrace_form.specs.Fields.{Names};
ghost use Rattle.rtrace_form.specs.Heads.{Head, cap_or, read_groups};
ghost use Rattle.rtrace_form.specs.Waits.{bound_in};
ghost use Rattle.rtrace_write.specs.Behind.{IsToldWhole};
ghost use Rattle.rtrace_form.specs.Lines.{Happens, Ends};
ghost use Rattle.rtrace_form.specs.Reports.{Report, Entry, declared_lines, history_lines};
ghost use Rattle.rtrace_form.specs.SoFar.{SoFar, nothing_yet, told_in};
ghost use Rattle.rtrace_form.specs.Takers.{IsFirstFault};
ghost use Rattle.rtrace_form.specs.Texts.{IsTextOf, report_text};
ghost use Rattle.rtrace_form.specs.declared.fault.Code.{Code};
ghost use Rattle.rtrace_form.specs.declared.fault.Fault.{Fault};
ghost use Rattle.rtrace_write.specs.Gathered.{KnowsGathered};
ghost use Rattle.rtrace_write.specs.Open.{open_told};
ghost use Rattle.rtrace_write.specs.Told.{told, step_told, leaves_from};
ghost use Rattle.rcover_laws.specs.Ended.{ended_by};
ghost use Rattle.rcover_laws.specs.declared.wait_end.WaitEnd.{WaitEnd};
ghost use Rattle.rtrace_read.specs.Past.{Past, start_of, with_event, begun};
ghost use Rattle.rtrace_read.specs.Knows.{changes_in};
ghost use Rattle.rtrace_read.specs.LineTakes.{StillDue};
ghost use Rattle.rtrace_read.specs.Takes.{Adds, NamesStay};
ghost use Rattle.rtrace_replay.specs.Followed.{AreFollowed, IsTold};
ghost use Rattle.rtrace_replay.specs.Names.{names_read};
ghost use Rattle.rtrace_replay.specs.Parts.{ArePartsOf};
ghost use Rattle.rtrace_replay.specs.Replaying.{KnowsReplay, IsToldToEnd, StandsOrTook};

use csv::ByteRecord;
use rclaim::Event;
use rmodel::Machine;
use rtrace_form::{Code, Records, RowErr, TextErr, take_text};
use rtrace_read::{ReportReader, TakenRecord, take};
use rtrace_write::{
    Gathered, NameRows, OpenText, Page, close_history, ending_of, head_of, push_step,
};
use std::alloc::{AllocError, Global};
use std::mem;

/// The text of a report, in the three parts in which it is made.
#[derive(Drop)]
pub struct Replayed {
    /// What comes before the history.
    pub head: Page,
    /// Each event, what it changes, and the waits that it ends.
    pub history: Page,
    /// The ledgers, and the end.
    pub ending: Page,
}

// What is needed to report events, made at the first event: after it no name is declared.
#[derive(Drop)]
struct Telling {
    names: NameRows,
    // The waits so far, until their bounds are known.
    gathered: Gathered,
}

/// Takes an event list, and makes the text of its history as it goes: each event is stepped once.
#[derive(Drop)]
pub struct Replaying {
    alloc: Global,
    /// What the records so far have said.
    pub reading: ReportReader,
    telling: Option<Telling>,
    history: OpenText,
    /// What the latest record said: nothing, where it was refused or memory ran out.
    pub taken: TakenRecord,
}

impl Replaying {
    ghost use Rattle.rtrace_form.specs.SoFar.{SoFar, nothing_yet, entries_in, told_in, with_row};
    ghost use Rattle.rtrace_form.specs.Faults.{code_of, is_ended};
    ghost use Rattle.rtrace_replay.specs.Replaying.{KnowsReplay};

    /// Nothing was taken, and no record said anything.
    pub fn new(alloc: Global) -> Replaying
        ensures knows { KnowsReplay result nothing_yet }
        ensures nothing { result.taken ≡ TakenRecord.Other }
    {
        Replaying {
            alloc,
            reading: ReportReader::new(alloc, false),
            telling: None,
            history: OpenText::new(alloc),
            taken: TakenRecord::Other,
        }
    }

    /// Takes a record; the text of the history grows with each event.
    ///
    /// # Errors
    ///
    /// The first code of the record, or out of memory; the record has said nothing then. Where it is wrong, what was
    /// due to the reader is still due, no name was added but the record's own, and the text and the `Telling` are as
    /// they were. Out of memory, the reader is as before but for the room for ledgers, or it has taken the record;
    /// nothing is promised then of the text and of the `Telling`.
    pub fn take_record(&mut self, fields: &ByteRecord) -> Result<(), RowErr>
        requires { (s : SoFar) × KnowsReplay self.old s × (length (entries_in s) < 2 ^ 62) }
        ensures taken { OnOk result ((s : SoFar) → KnowsReplay self.old s → (code_of false s (fields_of fields.now) ≡ None) × KnowsReplay self.new (with_row false s (fields_of fields.now))) }
        ensures told { OnOk result ((s : SoFar) → KnowsReplay self.old s → Adds self.new.taken s (with_row false s (fields_of fields.now))) }
        ensures bad { (code : Code) → result ≡ Err (RowErr.Bad code) → (s : SoFar) → KnowsReplay self.old s → code_of false s (fields_of fields.now) ≡ Some code }
        ensures still { (code : Code) → result ≡ Err (RowErr.Bad code)
            → (self.new ≡ record self.old { reading = self.new.reading; taken = self.new.taken }) × StillDue self.old.reading self.new.reading }
        ensures names { (code : Code) → result ≡ Err (RowErr.Bad code) → NamesStay self.old.reading self.new.reading (fields_of fields.now) }
        ensures untaken { OnErr result (self.new.taken ≡ TakenRecord.Other) }
        ensures memory { result ≡ Err RowErr.Memory → StandsOrTook self.old.reading self.new.reading (fields_of fields.now) }
    {
        if let Err(e) = take(&mut self.reading, self.alloc, fields, &mut self.taken) {
            self.taken = TakenRecord::Other;
            return Err(e);
        }
        match &self.taken {
            TakenRecord::Event(event) => {
                let told = tell(
                    self.alloc,
                    &self.reading,
                    &mut self.telling,
                    &mut self.history,
                    event,
                );
                match told {
                    Ok(()) => Ok(()),
                    Err(_) => {
                        self.taken = TakenRecord::Other;
                        Err(RowErr::Memory)
                    }
                }
            }
            TakenRecord::Act(_) => Ok(()),
            TakenRecord::Wait(_) => Ok(()),
            TakenRecord::Other => Ok(()),
        }
    }

    /// The report of the list that was taken to its end. The text of the history is moved out, and all else stays.
    ///
    /// # Errors
    ///
    /// Out of memory. The text of the history may be lost then.
    pub fn made(&mut self) -> Result<Replayed, AllocError>
        requires { (s : SoFar) × KnowsReplay self.old s × (is_ended s ≡ true) }
        ensures text { IfOk result (λ made. (s : SoFar) → KnowsReplay self.old s → is_ended s ≡ true
            → (made.head ++ (made.history ++ made.ending) ≡ report_text (told_in s)) × ArePartsOf (told_in s) made.head made.history made.ending) }
        ensures given { OnOk result (self.new.history ≡ []) }
        ensures kept { self.new ≡ record self.old { history = self.new.history } }
    {
        match &self.telling {
            Some(telling) => made_of(self.alloc, &mut self.history, telling, &self.reading),
            None => {
                let telling = telling_of(self.alloc, &self.reading)?;
                made_of(self.alloc, &mut self.history, &telling, &self.reading)
            }
        }
    }
}

// Appends an event to the text, with what it changed and the waits that it ended, and keeps what gives their bounds.
fn tell(
    alloc: Global,
    reading: &ReportReader,
    telling: &mut Option<Telling>,
    history: &mut OpenText,
    event: &Event,
) -> Result<(), AllocError>
    requires there { IsSome reading.now.machine × IsSome reading.now.following }
    requires told { (p : Past) × (ws : List WaitEnd) × AreFollowed reading.now.following (with_event p event.now) × IsTold telling.old reading.now p ws }
    ensures there { OnOk result (IsSome telling.new) }
    ensures text { OnOk result ((p : Past) → AreFollowed reading.now.following (with_event p event.now)
        → history.new ≡ history.old ++ open_told (names_read reading.now) (Happens event.now ∷ step_told (changes_in reading.now.machine) (ended_by (start_of p) p.events event.now))) }
    ensures told { OnOk result ((p : Past) (ws : List WaitEnd) → AreFollowed reading.now.following (with_event p event.now) → IsTold telling.old reading.now p ws
        → IsTold telling.new reading.now (with_event p event.now) (ws ++ ended_by (start_of p) p.events event.now)) }
{
    match telling {
        Some(telling) => push(history, telling, reading, event),
        None => tell_first(alloc, reading, telling, history, event),
    }
}

// The same for the first event. Room for the `Telling` is kept out of the path of each event.
#[cold]
#[inline(never)]
fn tell_first(
    alloc: Global,
    reading: &ReportReader,
    telling: &mut Option<Telling>,
    history: &mut OpenText,
    event: &Event,
) -> Result<(), AllocError>
    requires none { telling.old ≡ None }
    requires there { IsSome reading.now.machine × IsSome reading.now.following }
    requires told { (p : Past) × (ws : List WaitEnd) × AreFollowed reading.now.following (with_event p event.now) × IsTold telling.old reading.now p ws }
    ensures there { OnOk result (IsSome telling.new) }
    ensures text { OnOk result ((p : Past) → AreFollowed reading.now.following (with_event p event.now)
        → history.new ≡ history.old ++ open_told (names_read reading.now) (Happens event.now ∷ step_told (changes_in reading.now.machine) (ended_by (start_of p) p.events event.now))) }
    ensures told { OnOk result ((p : Past) (ws : List WaitEnd) → AreFollowed reading.now.following (with_event p event.now) → IsTold telling.old reading.now p ws
        → IsTold telling.new reading.now (with_event p event.now) (ws ++ ended_by (start_of p) p.events event.now)) }
{
    let mut made = telling_of(alloc, reading)?;
    push(history, &mut made, reading, event)?;
    *telling = Some(made);
    Ok(())
}

// The `Telling`, made at the first event.
fn telling_of(alloc: Global, reading: &ReportReader) -> Result<Telling, AllocError>
    ensures names { IfOk result (λ made. made.names ≡ names_read reading.now) }
    ensures gathered { IfOk result (λ made. (groups : ReadGroups) (cap : ℕ) → KnowsGathered made.gathered (begun groups (length reading.now.tasks) cap) []) }
{
    Ok(Telling {
        names: NameRows::new(alloc, &reading.resources, &reading.tasks)?,
        gathered: Gathered::new(alloc, reading.tasks.len())?,
    })
}

// Appends an event, with what the machine says it changed and the waits that the follower says it ended.
fn push(
    history: &mut OpenText,
    telling: &mut Telling,
    reading: &ReportReader,
    event: &Event,
) -> Result<(), AllocError>
    requires there { IsSome reading.now.machine × IsSome reading.now.following }
    requires told { (p : Past) × (ws : List WaitEnd) × AreFollowed reading.now.following (with_event p event.now) × KnowsGathered telling.old.gathered p ws }
    ensures names { telling.new.names ≡ telling.old.names }
    ensures text { OnOk result ((p : Past) → AreFollowed reading.now.following (with_event p event.now)
        → history.new ≡ history.old ++ open_told telling.old.names (Happens event.now ∷ step_told (changes_in reading.now.machine) (ended_by (start_of p) p.events event.now))) }
    ensures gathered { OnOk result ((p : Past) (ws : List WaitEnd) → AreFollowed reading.now.following (with_event p event.now) → KnowsGathered telling.old.gathered p ws
        → KnowsGathered telling.new.gathered (with_event p event.now) (ws ++ ended_by (start_of p) p.events event.now)) }
{
    let (Some(machine), Some(following)) = (&reading.machine, &reading.following) else {
        unreachable!()
    };
    let ended = following.ended();
    push_step(history, &telling.names, event, machine.changes(), ended)?;
    telling.gathered.tell(event, ended)
}

// The report of what was read to its end. The text is moved out.
fn made_of(
    alloc: Global,
    text: &mut OpenText,
    telling: &Telling,
    reading: &ReportReader,
) -> Result<Replayed, AllocError>
    requires { (s : SoFar) × IsToldToEnd text.old telling.now reading.now s }
    ensures text { IfOk result (λ made. (s : SoFar) → IsToldToEnd text.old telling.now reading.now s
        → (made.head ++ (made.history ++ made.ending) ≡ report_text (told_in s)) × ArePartsOf (told_in s) made.head made.history made.ending) }
    ensures given { OnOk result (text.new ≡ []) }
{
    let head = head_with(alloc, &telling.names, reading)?;
    let ending = ending_with(alloc, &telling.names, reading)?;
    let told = mem::replace(text, OpenText::new(alloc));
    let history = history_with(alloc, told, &telling.gathered, reading)?;
    Ok(Replayed {
        head,
        history,
        ending,
    })
}

impl Records for Replaying {
    ghost use Rattle.std.specs.Prelude.{false};
    ghost use Rattle.rtrace_form.specs.Takers.{list_code, is_list_done, KnowsSaid};
    ghost use Rattle.rtrace_form.specs.Records.{Row};
    ghost use Rattle.rtrace_form.specs.SoFar.{SoFar, with_row};
    ghost use Rattle.rtrace_form.specs.declared.fault.Code.TheVariants.{NoEnd};
    ghost use Rattle.rtrace_replay.specs.Replaying.{KnowsReplay, ReplayStays};

    type Code = Code;

    ghost code = { list_code false };

    ghost is_done = { is_list_done false };

    ghost no_end = { NoEnd };

    ghost knows = { KnowsSaid false KnowsReplay };

    ghost stays = { ReplayStays };

    fn take(&mut self, fields: &ByteRecord) -> Result<(), RowErr>
        requires { (rows : List Row) × KnowsSaid false KnowsReplay self.old rows × (length rows < 2 ^ 62) }
        ensures taken { OnOk result ((rows : List Row) → KnowsSaid false KnowsReplay self.old rows
            → (list_code false rows (fields_of fields.now) ≡ None) × KnowsSaid false KnowsReplay self.new (rows ++ fields_of fields.now ∷ [])) }
        ensures bad { (cause : Code) → result ≡ Err (RowErr.Bad cause) → (rows : List Row) → KnowsSaid false KnowsReplay self.old rows → list_code false rows (fields_of fields.now) ≡ Some cause }
        ensures still { (cause : Code) → result ≡ Err (RowErr.Bad cause) → ReplayStays self.old self.new }

        // What it said is kept too, and no name was added but its own.
        ensures told { OnOk result ((s : SoFar) → KnowsReplay self.old s → Adds self.new.taken s (with_row false s (fields_of fields.now))) }
        ensures names { (cause : Code) → result ≡ Err (RowErr.Bad cause) → NamesStay self.old.reading self.new.reading (fields_of fields.now) }
    {
        self.take_record(fields)
    }

    fn has_ended(&self) -> bool {
        self.reading.has_ended()
    }

    fn no_end(&self) -> Code {
        Code::NoEnd
    }
}

// The head of the report of what was read to its end.
fn head_with(alloc: Global, names: &NameRows, reading: &ReportReader) -> Result<Page, AllocError>
    requires { IsSome reading.now.groups }
    ensures { (groups : ReadGroups) → reading.now.groups ≡ Some groups
        → IfOk result (λ page. page ≡ told names.now (declared_lines names.now.resources groups.groups names.now.tasks (Some (cap_or reading.now.tasks reading.now.cap)))) }
{
    match &reading.groups {
        Some(groups) => {
            let cap = reading.cap.unwrap_or(reading.tasks.len());
            head_of(alloc, names, groups, cap)
        }
        None => unreachable!(),
    }
}

// The text of the whole history, with the bounds of its waits.
fn history_with(
    alloc: Global,
    text: OpenText,
    gathered: &Gathered,
    reading: &ReportReader,
) -> Result<Page, AllocError>
    requires { (names : Names) × (head : Head) × (entries : List Entry) × IsToldWhole text gathered.now names head entries
        × (reading.now.groups ≡ Some (read_groups head)) × (cap_or reading.now.tasks reading.now.cap ≡ head.cap) × (1 ≤ head.cap) }
    ensures { IfOk result (λ page. (names : Names) (head : Head) (entries : List Entry) → IsToldWhole text gathered.now names head entries
        → reading.now.groups ≡ Some (read_groups head) → cap_or reading.now.tasks reading.now.cap ≡ head.cap → page ≡ told names (history_lines true (bound_in head entries) head [] entries)) }
{
    match &reading.groups {
        Some(groups) => {
            let cap = reading.cap.unwrap_or(reading.tasks.len());
            close_history(alloc, text, gathered, groups, cap)
        }
        None => unreachable!(),
    }
}

// The ledgers, and the end.
fn ending_with(alloc: Global, names: &NameRows, reading: &ReportReader) -> Result<Page, AllocError>
    requires { length reading.now.ledgers.items ≡ length reading.now.resources }
    ensures { IfOk result (λ page. page ≡ told names.now (leaves_from 0 reading.now.ledgers.items ++ Ends ∷ [])) }
{
    // A look at the table lets the proof see that it is small.
    let _ = reading.resources.len();
    ending_of(alloc, names, &reading.ledgers)
}

/// Reads an event list, and makes the text of its report. Its events are not kept.
///
/// # Errors
///
/// The first fault of a text that is not an event list, or out of memory.
pub fn replay_of(alloc: Global, bytes: &[u8]) -> Result<Replayed, TextErr>
    ensures made { IfOk result (λ made. (report : Report) × IsTextOf false bytes.now report × (made.head ++ (made.history ++ made.ending) ≡ report_text report) × ArePartsOf report made.head made.history made.ending) }
    ensures bad { (fault : Fault Code) → result ≡ Err (TextErr.Bad fault) → IsFirstFault false bytes.now fault }
{
    replay_by(alloc, bytes, &mut Replaying::new(alloc))
}

// The same, by a taker that has taken nothing.
fn replay_by(alloc: Global, bytes: &[u8], taker: &mut Replaying) -> Result<Replayed, TextErr>
    requires { KnowsReplay taker.old nothing_yet }
    ensures made { IfOk result (λ made. (report : Report) × IsTextOf false bytes.now report × (made.head ++ (made.history ++ made.ending) ≡ report_text report) × ArePartsOf report made.head made.history made.ending) }
    ensures bad { (fault : Fault Code) → result ≡ Err (TextErr.Bad fault) → IsFirstFault false bytes.now fault }
{
    match take_text(alloc, bytes, taker) {
        Ok(()) => match taker.made() {
            Ok(made) => Ok(made),
            Err(_) => Err(TextErr::Memory),
        },
        Err(e) => Err(e),
    }
}
