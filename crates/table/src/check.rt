// Whether a file is a legal service table.
ghost use Rattle.std.specs.Prelude.{◌≡◌, is_ok, Decides, IfOk};
ghost use Rattle.terms.specs.Faults.{outcome};
ghost use Rattle.pathways.specs.Rules.{done};
ghost use Rattle.table.specs.Checks.{checked};
ghost use Rattle.table.specs.Format.{Table};

use crate::bodies::Bodies;
use crate::layout::check_layout;
use crate::sense::check_sense;
use terms::fault::Fault;

// The file, with what its layout keeps, where it keeps every rule.
pub(crate) fn check_all(file: &[u8]) -> Result<Bodies<'_>, Fault>
    ensures answer { done result ≡ checked file.now }
    ensures same { IfOk result (λ x. x.contents.file.now ≡ file.now) }
{
    let bodies = check_layout(file)?;
    check_sense(&bodies)?;
    Ok(bodies)
}

// The first fault of the file, if it has one. The rules are gone through one by one, each over the whole file.
pub fn check(file: &[u8]) -> Result<(), Fault>
    ensures value { outcome result ≡ checked file.now }
    ensures format { Decides (is_ok result) (Table file.now) }
{
    check_all(file)?;
    Ok(())
}
