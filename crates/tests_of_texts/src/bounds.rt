// Bounds of scripts, written with ample memory.
ghost use Rattle.std.specs.Prelude.{◌≤◌, IfOk, IfSome};

use rnlp_cli::bound_text;
use rscript::{Script, read_script};
use std::alloc::Global;
use std::test::Fail;

// Scripts, each after the cap that is given and before the text of its bounds. The first three were worked out by hand,
// the others by `bench/bounds`, claim by claim.
const CASES: &str = "none
----
rnlp,1
resource,a
resource,b
resource,c
group,a+b
group,b+c
task,t1
read,a+b,3
finish
task,t2
write,a,2
finish
task,t3
write,b,5
finish
end
----
bound,t1,1,first,0,1,5
bound,t2,1,first,2,1,11
bound,t3,1,first,2,1,8
end
====
none
----
rnlp,1
resource,a
task,t1
write,a,2
finish
task,t2
write,a,2
finish
task,t3
write,a,2
finish
task,t4
upgrade,a,1,3
finish
end
----
bound,t1,1,first,4,3,11
bound,t2,1,first,4,3,11
bound,t3,1,first,4,3,11
bound,t4,1,first,0,1,2
bound,t4,1,rise,0,3,6
end
====
1
----
rnlp,1
resource,a
task,t1
write,a,2
finish
task,t2
write,a,2
finish
task,t3
write,a,2
finish
end
----
bound,t1,1,first,0,0,0
bound,t2,1,first,0,0,0
bound,t3,1,first,0,0,0
end
====
none
----
rnlp,1
resource,a
resource,b
resource,c
resource,d
group,a+b
task,t1
nested,c,a+d,a,4
ask,d
ask,a+c
finish
read,a+b,3
finish
task,t2
upgrade,a,1,6
finish
mixed,b,c,2
finish
task,t3
write,d,5
finish
task,t4
end
----
bound,t1,1,first,3,2,14
bound,t1,1,ask,0,0,0
bound,t1,1,ask,1,0,1
bound,t1,2,first,1,1,7
bound,t2,1,first,0,1,4
bound,t2,1,rise,2,2,15
bound,t2,2,first,2,2,15
bound,t3,1,first,3,2,19
end
====
2
----
rnlp,1
resource,a
resource,b
resource,c
resource,d
group,a+b
task,t1
nested,c,a+d,a,4
ask,d
ask,a+c
finish
read,a+b,3
finish
task,t2
upgrade,a,1,6
finish
mixed,b,c,2
finish
task,t3
write,d,5
finish
end
----
bound,t1,1,first,2,1,8
bound,t1,1,ask,0,0,0
bound,t1,1,ask,1,0,1
bound,t1,2,first,1,1,7
bound,t2,1,first,0,1,4
bound,t2,1,rise,1,1,8
bound,t2,2,first,1,1,8
bound,t3,1,first,2,1,12
end
";

// The cap that a case gives.
fn cap_of(word: &str) -> Result<Option<u8>, Fail>
    ensures { IfOk result (λ cap. IfSome cap (λ m. 1 ≤ m)) }
{
    match word {
        "none" => Ok(None),
        "1" => Ok(Some(1)),
        "2" => Ok(Some(2)),
        _ => Err(Fail::from("no cap is given so")),
    }
}

// Whether this text is written for the script under the cap.
fn is_told(alloc: Global, cap: Option<u8>, script: &str, told: &str) -> Result<bool, Fail>
    requires { IfSome cap (λ m. 1 ≤ m) }
{
    match read_script(alloc, script.as_bytes()) {
        Ok(script) => are_bounds(alloc, cap, &script, told),
        Err(_) => Ok(false),
    }
}

// The same for a script that was read.
fn are_bounds(alloc: Global, cap: Option<u8>, script: &Script, told: &str) -> Result<bool, Fail>
    requires { IfSome cap (λ m. 1 ≤ m) }
{
    let text = bound_text(alloc, script, cap)?;
    Ok(text.as_slice() == told.as_bytes())
}

// Whether for each case just the text at its end is written.
fn are_told(alloc: Global, cases: &str) -> Result<bool, Fail> {
    for case in cases.split("====\n") {
        let Some((cap, rest)) = case.split_once("\n----\n") else {
            return Ok(false);
        };
        let Some((script, told)) = rest.split_once("----\n") else {
            return Ok(false);
        };
        if !is_told(alloc, cap_of(cap)?, script, told)? {
            return Ok(false);
        }
    }
    Ok(true)
}

#[test]
fn bounds_are_told(rt: HostRuntime) -> Result<(), Fail> {
    let told = are_told(rt.alloc(), CASES)?;
    assert!(rt; told);
    Ok(())
}
