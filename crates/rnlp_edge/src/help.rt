// What the program says of itself.
ghost use Rattle.std.specs.Prelude.{◌≡◌, map, option_map, string_bytes};
ghost use Rattle.rnlp_edge.specs.Words.{help_text, version_text, own_text};

const HELP: &str = "usage: rnlp FORM < INPUT > OUTPUT

forms
  run          read a script, run its tasks, each on a thread of its own, and write the report of what happened
  run tally    the same, and write after the report what was counted of its events while it ran
  run watch    the same, and write after the report what two monitors saw of the lock while it ran, without taking it
  replay       read an event list, and write its report
  audit        read a report, check all of it, and write how many events and waits it has
  bound        read a script, and write how long each wait of its requests can be
  bound M      the same where no more than M requests, from 1 to 64, are incomplete at a time
  drill N      draw N events, from 1 to 1000000, and write what was counted of them; it reads no input
  --help, -h   write this text
  --version    write the version of the program and those of the formats

an example: rnlp run < bank.script > bank.report && rnlp audit < bank.report

exit statuses
  0  done
  2  the words are none of these forms
  3  the input could not be read
  4  the output could not be written, or not all of it
  5  the input is no script; error,LINE,CODE was written, or as much of it as could be
  6  the input is longer than 67108864 bytes, a script than 1048576, or a report than 17179869184
  7  out of memory
  8  the input is no event list, or no right report; error,LINE,CODE was written, or as much of it as could be

codes of status 5, of the record with the number LINE
   1  the name that it declares is none
   2  the name that it declares is declared already
   3  there are as many resources, tasks or groups as there may be
   4  its group is empty
   5  its request has nothing to read, or nothing to write
   6  the resources to read are not declared together
   7  the first part is empty, or not within the request
   8  it names a resource that is not declared
   9  a number is none, or above its limit
  10  it is no record, has another number of fields, or the version is not 1
  11  it may not stand at this place
  12  it shows or edits what the section does not hold, or what it asks for is empty, or not within the request
  13  it edits what the section holds for reading only
  14  the records end without end
  15  no resource stands before it
  16  no task stands before it

codes of status 8, of the record with the number LINE
  1  it is no record, has a bad number or word, or declares what is no name, repeated, empty or one too many
  2  it names a task or a resource that is not declared
  3  it may not stand at this place
  4  its event is refused, for one of these causes, whose number stands behind the code:
     1  the task has a request already
     2  as many requests are incomplete as the cap allows
     3  the task holds nothing, or an ask of it is pending
     4  the request is no upgrade, or has risen
     5  the request is not nested
     6  what is asked for is empty, or not within the request
     7  the request has nothing to read, or nothing to write
     8  the resources to read are not declared together
     9  the first part is empty, or not within the request
  5  a change or a wait is due and this is not its line, or none is due
  6  it is an act with a wrong number or answer, or one that the section may not do there
  7  a ledger is due, and this is not its line
  8  the records end without end
  9  the bound that it tells of a wait is wrong, and no record has another fault
";

const VERSION: &str = "rnlp 1\nreads and writes version 1 of scripts, event lists and reports\n";

/// The text that the words ask for, if they ask about the program itself.
pub fn own_text(words: &[String]) -> Option<&'static [u8]>
    ensures { option_map (λ text. text.now) result ≡ own_text (map string_bytes words.now) }
{
    match words {
        [word] if word.as_str() == "--help" => Some(help()),
        [word] if word.as_str() == "-h" => Some(help()),
        [word] if word.as_str() == "--version" => Some(version()),
        _ => None,
    }
}

fn help() -> &'static [u8]
    ensures { result.now ≡ help_text }
{
    HELP.as_bytes()
}

fn version() -> &'static [u8]
    ensures { result.now ≡ version_text }
{
    VERSION.as_bytes()
}
