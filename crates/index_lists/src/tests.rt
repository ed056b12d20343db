//! Lists worked out by hand, and plain lists of lists beside the linked ones.
ghost use Rattle.std.specs.Prelude.{◌≡◌, ◌<◌, IfOk, OnOk};
ghost use Rattle.index_lists.specs.Lists.{list_of};

use super::*;
use plain::PlainRows;
use std::process::Abort;
use std::test::Fail;

// A head's list, from `first` by `next`.
fn nodes_of(alloc: Global, rows: &Rows, side: Side, head: u32) -> Result<Vec<u32>, AllocError>
    requires { head < rows.now.lists.heads }
    ensures { IfOk result (λ nodes. nodes.items ≡ list_of rows.now.lists side head) }
{
    let mut nodes = Vec::new(alloc);
    let mut at = rows.first(side, head);
    while let Some(node) = at {
        nodes.push(node)?;
        at = rows.next(side, node);
    }
    Ok(nodes)
}

fn put(rt: &impl Abort, rows: &mut Rows, side: Side, head: u32, node: u32) {
    assert!(rt; head < rows.heads());
    assert!(rt; node < rows.nodes());
    assert!(rt; !rows.linked(side, node));
    rows.link_last(side, head, node);
}

fn take(rt: &impl Abort, rows: &mut Rows, side: Side, node: u32) {
    assert!(rt; node < rows.nodes());
    assert!(rt; rows.linked(side, node));
    rows.unlink(side, node);
}

fn assert_list(
    rt: &(impl Abort + AllocGlobal),
    rows: &Rows,
    side: Side,
    head: u32,
    want: &[u32],
) -> Result<(), Fail> {
    assert!(rt; head < rows.heads());
    let nodes = nodes_of(rt.alloc(), rows, side, head)?;
    assert_eq!(rt; nodes.as_slice(), want, "{side:?} {head}");
    Ok(())
}

#[test]
fn both_sides_at_once(rt: HostRuntime) -> Result<(), Fail> {
    let mut rows = Rows::new(rt.alloc(), 5, 2)?;
    for node in [2, 0, 4, 3] {
        put(&rt, &mut rows, Side::First, 0, node);
    }
    for node in [0, 1, 2] {
        put(&rt, &mut rows, Side::Second, 1, node);
    }
    // From the middle, the front and the back of one list, and then its last node.
    for (node, left) in [(4, [2, 0, 3].as_slice()), (2, &[0, 3]), (3, &[0]), (0, &[])] {
        take(&rt, &mut rows, Side::First, node);
        assert_list(&rt, &rows, Side::First, 0, left)?;
    }
    assert_list(&rt, &rows, Side::Second, 1, &[0, 1, 2])?;
    assert_eq!(rt; rows.moves(), 11);
    Ok(())
}

#[test]
fn grows_with_lists_standing(rt: HostRuntime) -> Result<(), Fail> {
    let mut rows = Rows::new(rt.alloc(), 2, 1)?;
    for node in [1, 0] {
        put(&rt, &mut rows, Side::First, 0, node);
    }
    assert!(rt; rows.nodes() <= 4 && rows.heads() <= 3);
    rows.grow(4, 3)?;
    assert_eq!(rt; (rows.nodes(), rows.heads(), rows.moves()), (4, 3, 2));
    for head in [0, 2] {
        put(&rt, &mut rows, Side::Second, head, 3);
        take(&rt, &mut rows, Side::Second, 3);
    }
    put(&rt, &mut rows, Side::First, 0, 3);
    assert_list(&rt, &rows, Side::First, 0, &[1, 0, 3])?;
    assert_list(&rt, &rows, Side::First, 2, &[])?;
    Ok(())
}

// Pseudo-random numbers, by a linear congruential generator with Knuth's constants.
#[derive(Drop)]
struct Numbers {
    state: u64,
}

const MULTIPLIER: u64 = 6364136223846793005;

const INCREMENT: u64 = 1442695040888963407;
// The low bits of the state follow short cycles.
const LOW: u64 = 1 << 33;

impl Numbers {
    fn below(&mut self, limit: u32) -> u32
        requires { 0 < limit }
        ensures { result < limit }
    {
        self.state = self.state.wrapping_mul(MULTIPLIER).wrapping_add(INCREMENT);
        (self.state / LOW % u64::from(limit)) as u32
    }

    fn side(&mut self) -> Side {
        if self.below(2) == 0 {
            Side::First
        } else {
            Side::Second
        }
    }
}

// Links the node, or unlinks it where it is linked, in both.
fn toggle(
    rows: &mut Rows,
    plain: &mut PlainRows,
    side: Side,
    head: u32,
    node: u32,
) -> Result<(), AllocError>
    requires head_in { head < rows.old.lists.heads }
    requires node_in { node < rows.old.lists.nodes }
    requires same { plain.old ≡ rows.old.lists }
    ensures same { OnOk result (plain.new ≡ rows.new.lists) }
{
    if rows.linked(side, node) {
        rows.unlink(side, node);
        plain.unlink(side, node);
        Ok(())
    } else {
        rows.link_last(side, head, node);
        plain.link_last(side, head, node)
    }
}

fn assert_same(
    rt: &(impl Abort + AllocGlobal),
    rows: &Rows,
    plain: &PlainRows,
) -> Result<(), Fail> {
    assert_eq!(rt; rows.moves(), plain.moves());
    for side in [Side::First, Side::Second] {
        for head in 0..rows.heads() {
            assert!(rt; head < plain.heads());
            assert_list(rt, rows, side, head, plain.nodes_of(side, head))?;
        }
    }
    Ok(())
}

const COMMANDS: u32 = 500;

#[test]
fn follows_plain_lists(rt: HostRuntime) -> Result<(), Fail> {
    let mut rows = Rows::new(rt.alloc(), 6, 2)?;
    let mut plain = PlainRows::new(rt.alloc(), 6, 2)?;
    let mut numbers = Numbers { state: 1 };
    for step in 0..COMMANDS {
        let nodes = rows.nodes();
        let heads = rows.heads();
        assert!(rt; 0 < nodes && nodes < COMMANDS);
        assert!(rt; 0 < heads && heads < COMMANDS);
        if step % 100 == 99 {
            rows.grow(nodes + 1, heads + 1)?;
            plain = plain.grown(rt.alloc(), nodes + 1, heads + 1)?;
        } else {
            let side = numbers.side();
            let head = numbers.below(heads);
            let node = numbers.below(nodes);
            toggle(&mut rows, &mut plain, side, head, node)?;
        }
        assert_same(&rt, &rows, &plain)?;
    }
    // Each step but five is a move.
    assert_eq!(rt; rows.moves(), 495);
    Ok(())
}
