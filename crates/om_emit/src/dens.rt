//! The edges whose denominators a code inverts.
ghost use Rattle.std.specs.Prelude.{◌≡◌, ◌<◌, ◌≤◌, IfOk, length, IsTrue};
ghost use Rattle.std.specs.List.{list_any};
ghost use Rattle.std.specs.List.Sorted.{IsStrictlySortedBy};
ghost use Rattle.std.specs.BTreeMap.{is_at};
ghost use Rattle.om_model.specs.Model.{anti_field as anti_field_of};
ghost use Rattle.om_code.specs.DenOrder.{den_order};
ghost use Rattle.om_emit.specs.GraphCode.{den_of as den_of_node, dens_of, place_of};
ghost use Rattle.om_keystone.specs.Built.{is_inner as is_inner_node};

use om_code::Den;
use om_graph::Key;
use om_model::{Particle, anti_field};
use om_ring::{List, NoMemory};
use std::alloc::Global;
use std::collections::BTreeSet;

/// Whether a node has two legs or more.
pub(crate) fn is_inner(node: &Key) -> bool
    ensures { result ≡ is_inner_node node.now }
{
    node.legs.size() > 1
}

/// The edge above a node of a process of `n` legs, by its side without leg 1 and the field that leaves that side.
#[tactic(auto, unfolding(crate::specs::GraphCode::den_of))]
pub(crate) fn den_of(particles: &[Particle], n: u8, node: &Key) -> Den
    requires some { 0 < n }
    requires within { n ≤ 12 }
    ensures { result ≡ den_of_node (anti_field_of particles.now) n node.now }
{
    if node.legs.holds(1) {
        Den {
            legs: node.legs.complement(n),
            field: anti_field(particles, node.field),
        }
    } else {
        Den {
            legs: node.legs,
            field: node.field,
        }
    }
}

/// The edges above the inner nodes, in order and each once.
pub(crate) fn edges_above(
    alloc: Global,
    particles: &[Particle],
    n: u8,
    nodes: &[Key],
) -> Result<BTreeSet<Den>, NoMemory>
    requires some { 0 < n }
    requires within { n ≤ 12 }
    ensures edges { IfOk result (λ dens. dens.keys ≡ dens_of (anti_field_of particles.now) n nodes.now) }
    ensures ordered { IfOk result (λ dens. IsStrictlySortedBy den_order dens.keys) }
{
    let mut dens = BTreeSet::new(alloc);
    for node in nodes {
        if !is_inner(node) {
            continue;
        }
        match dens.insert(den_of(particles, n, node)) {
            Ok(_) => {}
            Err(_) => return Err(NoMemory),
        }
    }
    Ok(dens)
}

/// The members of a set, in order.
pub(crate) fn listed(alloc: Global, dens: &BTreeSet<Den>) -> Result<List<Den>, NoMemory>
    ensures { IfOk result (λ list. list ≡ dens.now.keys) }
{
    let mut list = List::new(alloc);
    for den in dens.iter() {
        list.push(*den)?;
    }
    Ok(list)
}

/// The place of a denominator that is there.
pub(crate) fn place(dens: &[Den], den: Den) -> usize
    requires ordered { IsStrictlySortedBy den_order dens.now }
    requires there { IsTrue (list_any (is_at (den_order den)) dens.now) }
    ensures place { result ≡ place_of dens.now den }
    ensures within { result < length dens.now }
{
    match dens.binary_search(&den) {
        Ok(place) => place,
        Err(_) => unreachable!(),
    }
}
