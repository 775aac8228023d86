// The hints of the columns that a CREATE TABLE statement lists, as the Rust reads it.
ghost use Rattle.sheet.specs.Filled.{list_outcome, FillsList};
ghost use Rattle.statement.specs.Statement.{statement_filling};

use column::piece::Reading;
use readings::statement::read_statement;
use sheet::filled::Filled;
use sheet::refusal::Refusal;

#[tactic(auto, using(crate::proofs::AsRust::rust_checks, crate::proofs::AsRust::rust_hints))]
pub fn from_create_sql(statement: &[u8], hints: &mut [u8]) -> Result<Filled, Refusal>
    ensures { FillsList (statement_filling statement.now hints.old)
        (list_outcome result hints.new) }
{
    read_statement(Reading::AsRust, statement, hints)
}
