//! The rank lines of the slip hall.
ghost use Rattle.std.specs.Prelude.{◌≡◌, ℕ, ◌+◌, ◌*◌, ◌<◌, ◌≤◌, true, List, [], ◌++◌, length, Ok, MatchResult};
ghost use Rattle.basics.specs.Elements.{elements};
ghost use Rattle.draws.specs.Made.{in_bounds, table_made};
ghost use Rattle.plans.specs.Planned.{model};
ghost use Rattle.plans.specs.Setup.{modelled};
ghost use Rattle.lines.specs.Reading.{line_now};
ghost use Rattle.frames.specs.Shape.{shape};
ghost use Rattle.page.specs.Ranks.{row as row_of, ranks_judged, meant, with_table, table_plan};
ghost use Rattle.page.specs.Reading.{behind};
ghost use Rattle.page.specs.Record.{only};
ghost use Rattle.page.specs.Run.{rows, collected};
ghost use Rattle.page.specs.declared.types.Sort.TheVariants.{Slips};

use crate::fault::{PageFault, refused_at};
use crate::first::plan_with;
use crate::lists::RankTable;
use crate::types::{Setup, Start};
use draws::table::TableDraw;
use frames::decode::decode;
use frames::frame::Frame;
use lines::reader::Reader;
use plans::fault::PlanFault;
use plans::plan::Plan;
use records::refusal::Refusal;

/// The ranks of a rank line: none of any other.
fn row<'a>(frame: Option<Frame<'a>>) -> &'a [u8]
    ensures { result.now ≡ row_of (shape frame.entry) }
{
    match frame {
        Some(Frame::Ranks(ranks)) => ranks,
        _ => &[],
    }
}

/// Adds ranks to the table.
fn push_all(table: &mut RankTable, ranks: &[u8])
    requires { length (elements table.old) + length ranks.now ≤ 104 }
    ensures { elements table.new ≡ elements table.old ++ ranks.now }
{
    for rank in ranks {
        table.push(*rank);
    }
}

/// Whether ranks are a draw of so many seats and rounds: if not, the line that brought the last of them is refused.
fn judge_ranks(n: u8, rounds: u8, ranks: &[u8], line: u16) -> Result<(), Refusal>
    ensures { result ≡ ranks_judged line (table_made n rounds ranks.now) }
{
    TableDraw::new(n, rounds, ranks).map(|_| ()).map_err(|fault| refused_at(
        line,
        PageFault::Plan(PlanFault::Draw(fault)),
    ))
}

/// The ranks of the rank lines, or the refusal of one that does not stand.
fn read_ranks(plan: &Plan, reader: &mut Reader) -> Result<RankTable, Refusal>
    requires sizes { in_bounds (model plan.now).n (model plan.now).rounds ≡ true }
    requires first { line_now reader.old ≡ 1 }
    ensures { MatchResult result
        (λ table. (rows (model plan.now) (model plan.now).rounds 0 [] (behind reader.old) ≡ collected Slips (with_table (elements table) (model plan.now)) [] (line_now reader.new + 1) [] (behind reader.new))
        × (table_made (model plan.now).n (model plan.now).rounds (elements table) ≡ Ok (meant (model plan.now).n (model plan.now).rounds (elements table))))
        (λ f. rows (model plan.now) (model plan.now).rounds 0 [] (behind reader.old) ≡ only f) }
{
    let n = plan.seats();
    let mut table = RankTable::empty();
    for k in 0..plan.rounds() {
        let place = u16::from(k) + 2;
        let malformed = refused_at(place, PageFault::Malformed);
        let line = reader.next().ok_or(malformed)?;
        let ranks = row(decode(line.bytes()));
        if ranks.len() != usize::from(n) {
            return Err(malformed);
        }
        push_all(&mut table, ranks);
        judge_ranks(n, k + 1, table.as_slice(), place)?;
    }
    Ok(table)
}

/// The plan of a table with what the first line says.
fn table_plan(setup: Setup, table: &[u8]) -> Result<Plan, PlanFault>
    ensures { modelled result ≡ table_plan setup table.now }
{
    let draw = TableDraw::new(setup.n, setup.rounds, table)?;
    plan_with(&draw, setup)
}

/// The plan of the slip hall, with the ranks of its rank lines.
pub(crate) fn slip_plan(start: Start, reader: &mut Reader) -> Result<Plan, Refusal>
    requires { line_now reader.old ≡ 1 }
    ensures { MatchResult result
        (λ p. rows (model start.plan) (model start.plan).rounds 0 [] (behind reader.old) ≡ collected Slips (model p) [] (line_now reader.new + 1) [] (behind reader.new))
        (λ f. rows (model start.plan) (model start.plan).rounds 0 [] (behind reader.old) ≡ only f) }
{
    let Start { setup, plan } = start;
    let table = read_ranks(&plan, reader)?;
    table_plan(setup, table.as_slice()).map_err(|fault| refused_at(1, PageFault::from(fault)))
}
