//! The table of colour patterns.
ghost use Rattle.std.specs.Prelude.{◌≡◌, ℕ, ◌+◌, ◌<◌, ◌≤◌, ◌⊎◌, List, length, take, ◌++◌, ◌∷◌, [], position, ◌==◌};
ghost use Rattle.om_colour.specs.Table.{ColouredSlots, Row, choice_count, choice_of, first_row, next_slot, order_of, reading_of, row_number, row_of, same_colour, slots_from, table};

use crate::{Choice, Colour};
use std::marker::Model;

/// The row of the table of patterns that the colours at a vertex have, with its choices. Made by [`pattern`].
#[derive(Drop)]
pub struct ColourRow {
    number: u8,
    slots: u8,
    count: u8,
    // The slots that a line passes in turn by each choice, then 0.
    ways: [[u8; 5]; 6],
}

impl Model for ColourRow {
    ghost use Rattle.std.specs.Prelude.{ℕ, ◌≤◌, take};
    ghost use Rattle.om_colour.specs.Table.{Row};

    ghost Value = { Row };

    ghost view = { λ r. record { number = r.number; slots = r.slots; ways = take r.count r.ways } };

    ghost invariant = { λ r. (r.count ≤ 6) × (3 ≤ r.slots) × (r.slots ≤ 4) };
}

impl ColourRow {
    fn new(number: u8, slots: usize, ways: &[[u8; 5]]) -> ColourRow
        requires three { 3 ≤ slots }
        requires four { slots ≤ 4 }
        requires few { length ways.now ≤ 6 }
        ensures { result ≡ record { number = number; slots = slots; ways = ways.now } }
    {
        let mut all = [[0; 5]; 6];
        all[..ways.len()].copy_from_slice(ways);
        ColourRow {
            number,
            slots: slots as u8,
            count: ways.len() as u8,
            ways: all,
        }
    }

    /// The number of the row in the table, 1 to 7.
    pub fn row(&self) -> u8
        ensures { result ≡ row_number self.now }
    {
        self.number
    }

    /// How many choices the row has.
    pub fn count(&self) -> u8
        ensures { result ≡ choice_count self.now }
    {
        self.count
    }

    /// Choice `k`, from 0: where it sends the lines that arrive at the vertex.
    pub fn choice(&self, k: u8) -> Choice
        requires { k < choice_count self.now }
        ensures { result ≡ choice_of self.now k }
    {
        let way = &self.ways[k as usize];
        Choice {
            to: [
                next_slot(way, 1),
                next_slot(way, 2),
                next_slot(way, 3),
                next_slot(way, 4),
            ],
        }
    }

    /// The order in which choice `k` reads the slots, with 0 past three slots: the cyclic order of the choice from
    /// slot 1 on where three or four octets meet, and the written order else.
    pub fn reading(&self, k: u8) -> [u8; 4]
        requires { k < choice_count self.now }
        ensures { result ≡ reading_of self.now k }
    {
        let order = self.order(k);
        let fourth = if self.slots == 4 { order[3] } else { 0 };
        [order[0], order[1], order[2], fourth]
    }

    // The slots in the order in which choice `k` reads them, as a way.
    fn order(&self, k: u8) -> [u8; 5]
        requires { k < choice_count self.now }
        ensures { result ≡ order_of self.now k }
    {
        match self.number {
            5 | 6 => self.ways[k as usize],
            _ => [1, 2, 3, 4, 0],
        }
    }
}

// The place of a slot on a way.
fn place_on(way: &[u8; 5], slot: u8) -> Option<usize>
    ensures { result ≡ position (λ s. s == slot) way.now }
{
    way.iter().position(|s| *s == slot)
}

// The slot after `slot` on a way, or 0.
fn next_slot(way: &[u8; 5], slot: u8) -> u8
    ensures { result ≡ next_slot way.now slot }
{
    match place_on(way, slot) {
        Some(k) if k < 4 => way[k + 1],
        _ => 0,
    }
}

// The slots of one colour, in order.
#[derive(Drop)]
struct SlotList {
    slots: [u8; 4],
    count: usize,
}

impl Model for SlotList {
    ghost Value = { List ℕ };

    ghost view = { λ l. take l.count l.slots };

    ghost invariant = { λ l. l.count ≤ 4 };
}

impl SlotList {
    fn new() -> SlotList
        ensures { result ≡ [] }
    {
        SlotList {
            slots: [0; 4],
            count: 0,
        }
    }

    fn push(&mut self, slot: u8)
        requires { length self.old < 4 }
        ensures { self.new ≡ self.old ++ slot ∷ [] }
    {
        self.slots[self.count] = slot;
        self.count += 1;
    }

    fn as_slice(&self) -> &[u8]
        ensures { result.now ≡ self.now }
    {
        &self.slots[..self.count]
    }
}

fn is_colour(c: Colour, k: Colour) -> bool
    ensures { result ≡ same_colour c k }
{
    c == k
}

fn slots_of(colours: &[Colour], colour: Colour) -> SlotList
    requires { length colours.now ≤ 4 }
    ensures { result ≡ slots_from 1 colour colours.now }
{
    let mut slots = SlotList::new();
    for (k, c) in colours.iter().enumerate() {
        if is_colour(*c, colour) {
            slots.push(k as u8 + 1);
        }
    }
    slots
}

// The table: the row for so many slots, of which these have the colours 3, -3 and 8.
fn row_with(slots: usize, threes: &[u8], anti_threes: &[u8], eights: &[u8]) -> Option<ColourRow>
    requires three { 3 ≤ slots }
    requires four { slots ≤ 4 }
    requires apart { length threes.now + length anti_threes.now + length eights.now ≤ slots }
    ensures { let found : ColouredSlots =
        record { number = slots; threes = threes.now; anti_threes = anti_threes.now; eights = eights.now }
        in result ≡ first_row found table }
{
    match (threes, anti_threes, eights) {
        ([], [], []) => Some(ColourRow::new(1, slots, &[[0; 5]])),
        ([t], [a], []) => Some(ColourRow::new(2, slots, &[[*t, *a, 0, 0, 0]])),
        ([t], [a], [e]) => Some(ColourRow::new(3, slots, &[[*t, *e, *a, 0, 0]])),
        ([], [], [e, f]) => Some(ColourRow::new(4, slots, &[[*e, *f, *e, 0, 0]])),
        ([], [], [e, f, g]) if slots == 3 => {
            Some(ColourRow::new(5, slots, &[[*e, *f, *g, *e, 0], [*e, *g, *f, *e, 0]]))
        },
        ([], [], [e, f, g, h]) => Some(ColourRow::new(
            6,
            slots,
            &[
                [*e, *f, *g, *h, *e],
                [*e, *f, *h, *g, *e],
                [*e, *g, *f, *h, *e],
                [*e, *g, *h, *f, *e],
                [*e, *h, *f, *g, *e],
                [*e, *h, *g, *f, *e],
            ],
        )),
        ([t], [a], [e, f]) => {
            Some(ColourRow::new(7, slots, &[[*t, *e, *f, *a, 0], [*t, *f, *e, *a, 0]]))
        },
        _ => None,
    }
}

/// The row of the table that has the colours of the three or four slots of a vertex, in whatever order, and None
/// where no row has them.
///
/// | row | colours | choices |
/// |---|---|---|
/// | 1 | all 1 | no line |
/// | 2 | 3, -3, the rest 1 | 3 to -3 |
/// | 3 | 3, -3, 8, the rest 1 | 3 to 8 to -3 |
/// | 4 | 8, 8, the rest 1 | each 8 to the other |
/// | 5 | 8, 8, 8 and no fourth slot | two cyclic orders: 123, 132 |
/// | 6 | 8, 8, 8, 8 | six cyclic orders: 1234, 1243, 1324, 1342, 1423, 1432 |
/// | 7 | 3, -3, 8, 8 | 3 to the lower 8 to the higher 8 to -3; 3 to the higher 8 to the lower 8 to -3 |
#[tactic(auto, using(crate::proofs::Rows::coloured_count))]
pub fn pattern(slots: &[Colour]) -> Option<ColourRow>
    requires { (length slots.now ≡ 3) ⊎ (length slots.now ≡ 4) }
    ensures { result ≡ row_of slots.now }
{
    let threes = slots_of(slots, Colour::Three);
    let anti_threes = slots_of(slots, Colour::AntiThree);
    let eights = slots_of(slots, Colour::Eight);
    row_with(
        slots.len(),
        threes.as_slice(),
        anti_threes.as_slice(),
        eights.as_slice(),
    )
}
