//! How a text of CSV is read, byte by byte.
ghost use Rattle.std.specs.Prelude.{◌≡◌, ◌⊎◌};
ghost use Rattle.csv.specs.Machine.{step, in_field, start_field, start_record};
ghost use Rattle.csv.specs.Reading.{default_config};
ghost use Rattle.rshort.specs.Closed.{IsOutside};
ghost use Rattle.rshort.specs.Steps.{state_of, action_of};

/// Where a reader stands in a record.
#[derive(Clone, Copy, PartialEq, Eq)]
pub(crate) enum Stand {
    RecordStart,
    FieldStart,
    Bare,
    Quoted,
    QuoteRead,
    ReturnRead,
}

/// What a byte does.
#[derive(Clone, Copy, PartialEq, Eq)]
pub(crate) enum Does {
    Nothing,
    Joins,
    EndsField,
    EndsRecord,
}

/// What a byte does, and where it leads.
pub(crate) fn step(stand: Stand, c: u8) -> (Stand, Does)
    ensures step { step default_config (state_of stand) c ≡ (state_of result.0, action_of result.1) }
    ensures end { result.1 ≡ Does.EndsRecord → (c ≡ 10) ⊎ (c ≡ 13) }
    ensures outside { result.1 ≡ Does.EndsRecord → IsOutside (state_of stand) }
    ensures blank { result.0 ≡ Stand.RecordStart → ¬ (result.1 ≡ Does.EndsRecord) → result.1 ≡ Does.Nothing }
    ensures quote { result.0 ≡ Stand.QuoteRead → (stand ≡ Stand.Quoted) × (c ≡ 34) × (result.1 ≡ Does.Nothing) }
    ensures field { result.1 ≡ Does.EndsField → result.0 ≡ Stand.FieldStart }
{
    match stand {
        Stand::RecordStart => at_record(c),
        Stand::FieldStart => at_field(c),
        Stand::Bare => in_field(c),
        Stand::Quoted => {
            if c == b'"' {
                (Stand::QuoteRead, Does::Nothing)
            } else {
                (Stand::Quoted, Does::Joins)
            }
        }
        Stand::QuoteRead => {
            if c == b'"' {
                (Stand::Quoted, Does::Joins)
            } else {
                in_field(c)
            }
        }
        Stand::ReturnRead => {
            if c == b'\n' {
                (Stand::RecordStart, Does::Nothing)
            } else {
                at_record(c)
            }
        }
    }
}

// The same outside of quotes.
fn in_field(c: u8) -> (Stand, Does)
    ensures step { in_field default_config c ≡ (state_of result.0, action_of result.1) }
    ensures end { result.1 ≡ Does.EndsRecord → (c ≡ 10) ⊎ (c ≡ 13) }
    ensures blank { result.0 ≡ Stand.RecordStart → result.1 ≡ Does.EndsRecord }
    ensures no_quote { ¬ (result.0 ≡ Stand.QuoteRead) }
    ensures field { result.1 ≡ Does.EndsField → result.0 ≡ Stand.FieldStart }
{
    if c == b',' {
        (Stand::FieldStart, Does::EndsField)
    } else if c == b'\r' {
        (Stand::ReturnRead, Does::EndsRecord)
    } else if c == b'\n' {
        (Stand::RecordStart, Does::EndsRecord)
    } else {
        (Stand::Bare, Does::Joins)
    }
}

// The same before a field.
fn at_field(c: u8) -> (Stand, Does)
    ensures step { start_field default_config c ≡ (state_of result.0, action_of result.1) }
    ensures end { result.1 ≡ Does.EndsRecord → (c ≡ 10) ⊎ (c ≡ 13) }
    ensures blank { result.0 ≡ Stand.RecordStart → result.1 ≡ Does.EndsRecord }
    ensures no_quote { ¬ (result.0 ≡ Stand.QuoteRead) }
    ensures field { result.1 ≡ Does.EndsField → result.0 ≡ Stand.FieldStart }
{
    if c == b'"' {
        (Stand::Quoted, Does::Nothing)
    } else {
        in_field(c)
    }
}

// The same before a record.
fn at_record(c: u8) -> (Stand, Does)
    ensures step { start_record default_config c ≡ (state_of result.0, action_of result.1) }
    ensures end { result.1 ≡ Does.EndsRecord → (c ≡ 10) ⊎ (c ≡ 13) }
    ensures blank { result.0 ≡ Stand.RecordStart → ¬ (result.1 ≡ Does.EndsRecord) → result.1 ≡ Does.Nothing }
    ensures no_quote { ¬ (result.0 ≡ Stand.QuoteRead) }
    ensures field { result.1 ≡ Does.EndsField → result.0 ≡ Stand.FieldStart }
{
    if c == b'\r' || c == b'\n' {
        (Stand::RecordStart, Does::Nothing)
    } else {
        at_field(c)
    }
}
