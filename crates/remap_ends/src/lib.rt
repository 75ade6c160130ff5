// Where each node goes by a list of old and new node numbers.
#![tactic(auto)]

ghost use Rattle.std.specs.Prelude.{[], ◌≤◌};
ghost use Rattle.tariff.specs.Units.{max_nodes};
ghost use Rattle.remap_rules.specs.Inner.{Moves, Listed};

use tariff::MAX_NODES;

// Where each node goes by no pair: nowhere else. `nodes` is a bare count, whose bound `Listed` has for the caller: no table stands beside it that a type could tie.
fn every_node(nodes: usize) -> [u16; MAX_NODES]
    requires { nodes ≤ max_nodes }
    ensures { Moves nodes [] [] result }
{
    let mut ends = [0u16; MAX_NODES];
    for (node, end) in ends[..nodes].iter_mut().enumerate() {
        *end = node as u16;
    }
    ends
}

// Where each node goes. The last pair comes first: the old node of a pair goes where the pairs behind it send the new one.
// By index from the last: both lists are read at it.
pub fn moved_ends(nodes: usize, old: &[u64], new: &[u64]) -> [u16; MAX_NODES]
    requires { Listed nodes old.now new.now }
    ensures { Moves nodes old.now new.now result }
{
    let mut ends = every_node(nodes);
    for i in (0..old.len()).rev() {
        ends[old[i] as usize] = ends[new[i] as usize];
    }
    ends
}
