// Scripts, read with ample memory.
use rscript::{Script, ScriptErr, read_script};
use std::alloc::Global;
use std::test::Fail;

// A script of two tasks; the first has ten statements, the second has none.
const SCRIPT: &str = "rnlp,1
resource,a
resource,b
group,a+b
task,t1
nested,-,a+b,a,3
add,a,5
ask,b
add,b,7
finish
upgrade,a,1,2
show,a
rise
take,a,1
finish
task,t2
end
";

// Texts that are not scripts, each after its line and code of the first fault.
const FAULTY: &str = "1,10
rnlp,01
====
1,11
resource,a
====
2,15
rnlp,1
task,9
====
3,16
rnlp,1
resource,a
end
====
3,2
rnlp,1
resource,a
resource,a
====
4,8
rnlp,1
resource,a
task,t1
write,b,many
====
4,9
rnlp,1
resource,a
task,t1
write,a,1000001
====
5,6
rnlp,1
resource,a
resource,b
task,t1
read,a+b,1
====
5,13
rnlp,1
resource,a
task,t1
read,a,1
add,a,1
====
5,14
rnlp,1
resource,a
task,t1
read,a,1
";

// Whether the script is read with all its parts.
fn is_read(alloc: Global) -> bool {
    match read_script(alloc, SCRIPT.as_bytes()) {
        Ok(script) => has_its_parts(&script),
        Err(_) => false,
    }
}

// Whether these are all its parts.
fn has_its_parts(script: &Script) -> bool {
    let declared = script.resources().len() == 2 && script.groups().len() == 1;
    declared
        && script.tasks().len() == 2
        && script.steps(0).len() == 10
        && script.steps(1).is_empty()
}

// What is reported about a text: the line and the code of its first fault.
fn told_of(alloc: Global, text: &str) -> Result<String, Fail> {
    match read_script(alloc, text.as_bytes()).err() {
        None => Ok(String::from_str(alloc, "a script")?),
        Some(ScriptErr::Bad { line, code }) => {
            let number = code.number();
            Ok(format!(in alloc; "{line},{number}")?)
        }
        Some(ScriptErr::Memory) => Ok(String::from_str(alloc, "out of memory")?),
    }
}

// Whether for each text just the line and code before it are reported.
fn are_told(alloc: Global, cases: &str) -> Result<bool, Fail> {
    for case in cases.split("====\n") {
        let Some((told, text)) = case.split_once("\n") else {
            return Ok(false);
        };
        if told_of(alloc, text)?.as_str() != told {
            return Ok(false);
        }
    }
    Ok(true)
}

#[test]
fn a_script_is_read(rt: HostRuntime) {
    assert!(rt; is_read(rt.alloc()));
}

#[test]
fn the_first_fault_is_told(rt: HostRuntime) -> Result<(), Fail> {
    let told = are_told(rt.alloc(), FAULTY)?;
    assert!(rt; told);
    Ok(())
}
