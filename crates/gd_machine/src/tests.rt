// Runs of scripts that are built by hand.
use crate::{Ending, Machine, Program, ending_line};
use gd_syntax::{FirstItem, FirstPrint, FirstProduct, FirstScript, FirstSum, ResPath, SumOp};
use host_io::MemorySink;
use std::alloc::{AllocError, Global};
use std::process::Abort;
use std::test::Fail;

fn product(alloc: Global, factors: &[i64]) -> Result<FirstProduct, AllocError> {
    match factors {
        [first, others @ ..] => Ok(FirstProduct {
            first: *first,
            others: others.to_vec(alloc)?,
        }),
        [] => Err(AllocError),
    }
}

/// The item of a first product and of others with their operators.
fn sum(alloc: Global, first: &[i64], terms: &[(SumOp, &[i64])]) -> Result<FirstItem, AllocError> {
    let mut others = Vec::new(alloc);
    for (op, factors) in terms {
        others.push((*op, product(alloc, factors)?))?;
    }
    let first = product(alloc, first)?;
    Ok(FirstItem::Sum(FirstSum { first, others }))
}

fn text(alloc: Global, content: &str) -> Result<FirstItem, AllocError> {
    Ok(FirstItem::Text(String::from_str(alloc, content)?))
}

/// Prints 2 - 3 - 4 and 5 + 6 * 7; then a text and a product that wraps around; then nothing but a newline.
fn three_prints(alloc: Global) -> Result<FirstScript, AllocError> {
    let chain = sum(alloc, &[2], &[(SumOp::Sub, &[3]), (SumOp::Sub, &[4])])?;
    let mixed = sum(alloc, &[5], &[(SumOp::Add, &[6, 7])])?;
    let wrapped = sum(alloc, &[4_611_686_018_427_387_904, 2], &[])?;
    let mut prints = Vec::new(alloc);
    prints.push(FirstPrint {
        line: 2,
        items: vec![in alloc; chain, text(alloc, " ")?, mixed]?,
    })?;
    prints.push(FirstPrint {
        line: 3,
        items: vec![in alloc; text(alloc, "n=")?, wrapped]?,
    })?;
    prints.push(FirstPrint {
        line: 7,
        items: vec![in alloc; text(alloc, "")?]?,
    })?;
    Ok(FirstScript { prints })
}

/// Compares what a run prints and its outcome line.
fn expect(
    rt: &(impl Abort + AllocGlobal),
    steps: u64,
    printed: &str,
    outcome: &str,
) -> Result<(), Fail> {
    let alloc = rt.alloc();
    let path = ResPath::new(alloc, "res://m.gd")?;
    let mut sink = MemorySink::new(alloc, 1_000, Vec::new(alloc))?;
    let program = Program::first(three_prints(alloc)?, path);
    let ending = Machine::new(alloc, program, steps.max(1))?.run(&mut sink);
    assert_eq!(rt; sink.taken(), printed.as_bytes());
    match ending {
        Ending::SinkFault | Ending::NoMemory => assert!(rt; false, "{outcome}"),
        told => assert_eq!(rt; ending_line(alloc, &told)?.as_str(), outcome),
    }
    Ok(())
}

#[test]
fn runs(rt: HostRuntime) -> Result<(), Fail> {
    let first = "-5 47\n";
    let two = "-5 47\nn=-9223372036854775808\n";
    let all = "-5 47\nn=-9223372036854775808\n\n";
    expect(&rt, 1, "", "spent res://m.gd:2 steps 1\n")?;
    expect(&rt, 2, first, "spent res://m.gd:3 steps 2\n")?;
    expect(&rt, 3, two, "spent res://m.gd:7 steps 3\n")?;
    expect(&rt, 4, all, "done steps 4 left 0\n")?;
    expect(&rt, 1_000_000, all, "done steps 4 left 0\n")?;
    Ok(())
}

#[test]
fn a_failed_write_ends_the_run(rt: HostRuntime) -> Result<(), Fail> {
    let alloc = rt.alloc();
    for (failing, printed) in [(0, ""), (1, "-5 47\n")] {
        let path = ResPath::new(alloc, "res://m.gd")?;
        let mut sink = MemorySink::new(alloc, 1_000, vec![in alloc; failing]?)?;
        let program = Program::first(three_prints(alloc)?, path);
        let ending = Machine::new(alloc, program, 100)?.run(&mut sink);
        assert!(rt; matches!(ending, Ending::SinkFault));
        assert_eq!(rt; sink.taken(), printed.as_bytes());
    }
    Ok(())
}
