// What no stored run shows: that a run with ample memory ends, and what stands where memory runs out.
use crate::status::Status;
use crate::top::run_in_memory;
use host_io::{MemoryFolder, MemorySink};
use std::alloc::{AllocError, Global};
use std::process::Abort;
use std::test::Fail;

const TWO_LINES: &str = "func _init():\n\tprint(\"a\", 2 - 3 - 4)\n\tprint(\"\")\n";

/// The status of a script's run over one file, and what was written.
fn run_one(alloc: Global, text: &str) -> Result<(Status, MemorySink), AllocError> {
    let mut words = Vec::new(alloc);
    for word in ["script", ".", "res://m.gd"] {
        words.push(String::from_str(alloc, word)?)?;
    }
    let path = String::from_str(alloc, "res://m.gd")?;
    let files = vec![in alloc; (path, text.as_bytes().to_vec(alloc)?)]?;
    let mut out = MemorySink::new(alloc, 1_000, Vec::new(alloc))?;
    if !MemoryFolder::can_hold(alloc, &files)? {
        return Err(AllocError);
    }
    let mut folder = MemoryFolder::new(files, Vec::new(alloc));
    let status = run_in_memory(alloc, &words, &mut folder, &mut out);
    Ok((status, out))
}

#[test]
fn a_script_runs(rt: HostRuntime) -> Result<(), Fail> {
    let (status, out) = run_one(rt.alloc(), TWO_LINES)?;
    assert_eq!(rt; status, Status::Done);
    assert_eq!(rt; out.taken(), "a-5\n\ndone steps 3 left 0\n".as_bytes());
    Ok(())
}

/// Where an allocation fails, a run answers its row, or want of memory with a part of the front of its text.
#[test]
fn memory_may_run_out(rt: HostRuntime) {
    let refused = "refused res://m.gd: res://m.gd\nres://m.gd:1:1 Unbuilt\n";
    let printed = "a-5\n\ndone steps 3 left 0\n";
    for (script, text, wanted) in [
        ("", refused, Status::Refused),
        (TWO_LINES, printed, Status::Done),
    ] {
        if let Ok((status, out)) = run_one(rt.alloc(), script) {
            let front = &text.as_bytes()[..out.taken().len().min(text.len())];
            assert_eq!(rt; out.taken(), front);
            if status != Status::NoMemory {
                assert_eq!(rt; status, wanted);
                assert_eq!(rt; out.taken().len(), text.len());
            }
        }
    }
}
