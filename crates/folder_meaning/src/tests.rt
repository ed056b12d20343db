//! Calls that take memory, where there is enough.
use super::*;
use gd_syntax::{Place, Script};
use std::alloc::Global;
use std::sync::Arc;
use std::test::Fail;
use tree_lists::Items;

/// The facts of an empty script, of a stage.
fn facts_of(alloc: Global, stage: u8) -> Result<Arc<FileFacts>, Fail> {
    let script = Script {
        place: Place { line: 1, column: 1 },
        heads: Items::new(alloc),
        members: Items::new(alloc),
    };
    let facts = FileFacts {
        stage,
        content: Shared::new(alloc, Content::Script(script))?,
        links: Shared::new(alloc, Items::new(alloc))?,
        bases: Shared::new(alloc, Items::new(alloc))?,
        classes: Shared::new(alloc, Items::new(alloc))?,
        bodies: Shared::new(alloc, Items::new(alloc))?,
    };
    Ok(Arc::new(alloc, facts)?)
}

#[test]
fn files_are_known_by_their_numbers(rt: HostRuntime) -> Result<(), Fail> {
    let globals = Globals {
        classes: Items::new(rt.alloc()),
        autoloads: Items::new(rt.alloc()),
    };
    let first = facts_of(rt.alloc(), 1)?;
    let second = facts_of(rt.alloc(), 2)?;
    let mut known = Known::new(rt.alloc(), &globals);
    known.add(3, first)?;
    known.add(5, second)?;
    assert_eq!(rt; known.facts(5).map(|facts| facts.stage), Some(2));
    assert_eq!(rt; known.facts(3).map(|facts| facts.stage), Some(1));
    assert!(rt; known.facts(4).is_none());
    Ok(())
}
