//! The texts of the faults of models.
ghost use Rattle.std.specs.Prelude.{◌≡◌, ◌+◌, ◌≤◌, ◌++◌, length};
ghost use Rattle.om_top.specs.FaultText.{cause_name as cause_name_of, model_fault_text, placed, rule_name as rule_name_of, table_name as table_name_of};

use om_model::{ModelRule, Table};
use om_modelfile::ModelFault;
use om_ring::{Line, NumeralFault};

/// Appends the name of a fault of a model, and where it stands.
pub(crate) fn push_model_fault(fault: ModelFault, line: &mut Line)
    requires { length line.old ≤ 100 }
    ensures text { line.new ≡ line.old ++ model_fault_text fault }
    ensures short { length line.new ≤ length line.old + 100 }
{
    match fault {
        ModelFault::NotToml => line.push(b"NotToml"),
        ModelFault::MissingKey(table, row) => push_placed(b"MissingKey", table, row, line),
        ModelFault::WrongKind(table, row) => push_placed(b"WrongKind", table, row, line),
        ModelFault::UnknownKey(table, row) => push_placed(b"UnknownKey", table, row, line),
        ModelFault::BadNumber(table, row, cause) => {
            line.push(b"BadNumber ");
            push_placed(cause_name(cause), table, row, line);
        }
        ModelFault::BadName(table, row) => push_placed(b"BadName", table, row, line),
        ModelFault::UnknownName(table, row) => push_placed(b"UnknownName", table, row, line),
        ModelFault::TooMuch(table, row) => push_placed(b"TooMuch", table, row, line),
        ModelFault::Rule(broken) => {
            push_placed(rule_name(broken.rule), broken.table, broken.row, line);
        }
        ModelFault::Memory => line.push(b"Memory"),
    }
}

// Appends a name with the table and the row that it speaks of.
fn push_placed(name: &[u8], table: Table, row: u32, line: &mut Line)
    requires { length line.old + length name.now ≤ 300 }
    ensures text { line.new ≡ line.old ++ placed name.now table row }
    ensures short { length line.new ≤ length line.old + length name.now + 40 }
{
    line.push(name);
    line.push(b" at ");
    line.push(table_name(table));
    line.push(b" ");
    line.push_number(u64::from(row));
}

fn table_name(table: Table) -> &'static [u8]
    ensures name { result.now ≡ table_name_of table }
    ensures short { length result.now ≤ 9 }
{
    match table {
        Table::Top => b"top",
        Table::Parameter => b"parameter",
        Table::Particle => b"particle",
        Table::Vertex => b"vertex",
    }
}

fn rule_name(rule: ModelRule) -> &'static [u8]
    ensures name { result.now ≡ rule_name_of rule }
    ensures short { length result.now ≤ 12 }
{
    match rule {
        ModelRule::RepeatedName => b"RepeatedName",
        ModelRule::BadPattern => b"BadPattern",
        ModelRule::NoInverse => b"NoInverse",
        ModelRule::NotSymmetric => b"NotSymmetric",
        ModelRule::Limit => b"Limit",
    }
}

// The name of why a text is no numeral; that of a bad byte has no place.
fn cause_name(cause: NumeralFault) -> &'static [u8]
    ensures name { result.now ≡ cause_name_of cause }
    ensures short { length result.now ≤ 7 }
{
    match cause {
        NumeralFault::Empty => b"Empty",
        NumeralFault::BadByte(_) => b"BadByte",
        NumeralFault::TooBig => b"TooBig",
        NumeralFault::ZeroDen => b"ZeroDen",
    }
}
