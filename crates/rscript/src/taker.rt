// How a reader of scripts takes the records of a text one after another.
ghost use Rattle.std.specs.Prelude.{◌≡◌};

use crate::code::ScriptCode;
use crate::place::AT_END;
use crate::reading::ScriptReader;
use crate::record::word_in;
use csv::ByteRecord;
use rtrace_form::{Records, RowErr};

impl Records for ScriptReader {
    ghost use Rattle.rscript.specs.Reading.{Knows};
    ghost use Rattle.rscript.specs.Texts.{script_code, is_script_done, KnowsSaid};
    ghost use Rattle.rscript.specs.declared.code.ScriptCode.TheVariants.{NoEnd};

    type Code = ScriptCode;

    ghost code = { script_code };

    ghost is_done = { is_script_done };

    ghost no_end = { NoEnd };

    ghost knows = { KnowsSaid Knows };

    ghost stays = { λ was now. now ≡ was };

    fn take(&mut self, fields: &ByteRecord) -> Result<(), RowErr<ScriptCode>> {
        let Some(word) = word_in(fields) else {
            return Err(RowErr::Bad(ScriptCode::BadField));
        };
        if !self.may_stand(word) {
            return Err(RowErr::Bad(ScriptCode::BadOrder));
        }
        self.take_word(word, fields)
    }

    fn has_ended(&self) -> bool {
        self.last == AT_END
    }

    fn no_end(&self) -> ScriptCode {
        ScriptCode::NoEnd
    }
}
