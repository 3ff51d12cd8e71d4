//! Rows of the colour table with their choices at hand.
ghost use Rattle.std.specs.Prelude.{◌≡◌, ◌<◌, IfOk};
ghost use Rattle.om_colour.specs.Table.{choice_count, choice_of};

use om_colour::{Choice, ColourRow};
use om_ring::NoMemory;
use std::alloc::Global;
use std::marker::Model;

/// Seen as the row.
#[derive(Drop)]
pub(crate) struct KnownRow {
    row: ColourRow,
    choices: Vec<Choice>,
}

impl Model for KnownRow {
    ghost use Rattle.om_colour.specs.Table.{Row};
    ghost use Rattle.om_graph.specs.Reactions.{AreChoices};

    ghost Value = { Row };

    ghost view = { λ x. x.row };

    ghost invariant = { λ x. AreChoices x.row x.choices.items };
}

impl KnownRow {
    pub(crate) fn new(alloc: Global, row: ColourRow) -> Result<KnownRow, NoMemory>
        ensures { IfOk result (λ known. known ≡ row) }
    {
        let mut choices = Vec::new(alloc);
        for k in 0..row.count() {
            if choices.push(row.choice(k)).is_err() {
                return Err(NoMemory);
            }
        }
        Ok(KnownRow { row, choices })
    }

    /// How many choices the row has.
    pub(crate) fn count(&self) -> u8
        ensures { result ≡ choice_count self.now }
    {
        self.row.count()
    }

    /// Choice `k`, from 0.
    pub(crate) fn choice(&self, k: u8) -> Choice
        requires { k < choice_count self.now }
        ensures { result ≡ choice_of self.now k }
    {
        if (k as usize) < self.choices.len() {
            self.choices[k as usize]
        } else {
            self.row.choice(k)
        }
    }
}
