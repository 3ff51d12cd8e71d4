//! What closes, with the numbers of its flows, which are numbered as they are met.
ghost use Rattle.std.specs.Prelude.{◌≡◌, ◌<◌, ◌∷◌, [], map, OnOk, OnErr, IfOk};
ghost use Rattle.om_graph.specs.ClosedRows.{AreRowsOf};
ghost use Rattle.om_graph.specs.Loops.{Adds, closed_seen};
ghost use Rattle.om_graph.specs.Possible.{flow_lt};
ghost use Rattle.om_graph.specs.Search.{interned, place};

use crate::BuildFault;
use crate::chosen::Chosen;
use crate::closings::Closed;
use crate::recent::{Recent, is_at};
use om_colour::Flow;
use om_cons::Table;
use om_cons::laws::identical_keys;
use om_ring::NoMemory;
use std::alloc::Global;
use std::marker::Model;

/// What closes, with the number of its flow. Ordered by the flow, the vertex, the choice and the nodes.
#[derive(Clone, Copy, PartialEq, Eq, PartialOrd, Ord, Debug)]
pub(crate) struct Row {
    pub(crate) flow: u32,
    pub(crate) vertex: u32,
    pub(crate) choice: u8,
    pub(crate) branches: Chosen,
    pub(crate) minus: bool,
}

/// What closes. Contracts see it as a list with the flows and the signs. A flow is met many times, so that each row takes its
/// number alone.
#[derive(Drop)]
pub(crate) struct ClosedRows {
    flows: Table<Flow>,
    recent: Recent,
    rows: Vec<Row>,
}

impl Model for ClosedRows {
    ghost use Rattle.std.specs.Prelude.{List, map};
    ghost use Rattle.om_colour.specs.declared.Flow.{Flow};
    ghost use Rattle.om_graph.specs.ClosedRows.{AreNumbered, row_closed};
    ghost use Rattle.om_graph.specs.Loops.{Signed};

    ghost Value = { List (Signed Flow) };

    ghost view = { λ c. map (row_closed c.flows) c.rows.items };

    ghost invariant = { λ c. AreNumbered c.flows c.rows.items };
}

impl ClosedRows {
    /// None yet.
    pub(crate) fn new(alloc: Global) -> Result<ClosedRows, NoMemory>
        ensures { IfOk result (λ found. found ≡ []) }
    {
        let recent = Recent::new(alloc)?;
        Ok(ClosedRows {
            flows: Table::new(alloc),
            recent,
            rows: Vec::new(alloc),
        })
    }

    /// One more behind them. `TooLarge` where there are `limit` of them, `Memory` for want of memory; either leaves them as they were.
    pub(crate) fn push(&mut self, limit: usize, one: Closed) -> Result<(), BuildFault>
        ensures added { Adds limit self.old (closed_seen one ∷ []) self.new result }
        ensures kept { OnErr result (self.new ≡ self.old) }
    {
        if self.rows.len() >= limit {
            return Err(BuildFault::TooLarge);
        }
        if self.rows.reserve(1).is_err() {
            return Err(BuildFault::Memory);
        }
        let slot = self.recent.slot_of(one.flow);
        let near = self.recent.at(slot);
        let Ok(flow) = add_near(&mut self.flows, near, one.flow) else {
            return Err(BuildFault::Memory);
        };
        self.recent.put(slot, flow);
        self.rows.push_reserved(Row {
            flow,
            vertex: one.vertex,
            choice: one.choice,
            branches: one.branches,
            minus: one.minus,
        });
        Ok(())
    }

    /// The flows, numbered as they were met, and the rows.
    pub(crate) fn into_parts(self) -> (Table<Flow>, Vec<Row>)
        ensures { AreRowsOf result.0 result.1.items self }
    {
        (self.flows, self.rows)
    }
}

// The number of a flow that was met at this place before, or else wherever it stands.
#[inline(always)]
fn add_near(flows: &mut Table<Flow>, near: u32, flow: Flow) -> Result<u32, NoMemory>
    ensures flows { OnOk result (flows.new ≡ interned flow_lt flows.old flow) }
    ensures number { IfOk result (λ number. number ≡ place flow_lt flows.new flow) }
    ensures kept { OnErr result (flows.new ≡ flows.old) }
{
    identical_keys(flows);
    if is_at(flows, near, flow) {
        return Ok(near);
    }
    add_flow(flows, flow)
}

/// The number of a flow, which may be a new one.
#[inline(never)]
pub(crate) fn add_flow(flows: &mut Table<Flow>, flow: Flow) -> Result<u32, NoMemory>
    ensures flows { OnOk result (flows.new ≡ interned flow_lt flows.old flow) }
    ensures number { IfOk result (λ number. number ≡ place flow_lt flows.new flow) }
    ensures kept { OnErr result (flows.new ≡ flows.old) }
{
    let Ok(count) = u32::try_from(flows.len()) else {
        return Err(NoMemory);
    };
    identical_keys(flows);
    if let Some(place) = flows.find(&flow) {
        return Ok(place as u32);
    }
    if flows.intern(flow).is_err() {
        return Err(NoMemory);
    }
    Ok(count)
}
