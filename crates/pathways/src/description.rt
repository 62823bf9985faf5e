// A description: a set of pathways that also tells its dialect and its steering URI.
ghost use Rattle.std.specs.Prelude.{◌≡◌};
ghost use Rattle.terms.specs.Faults.{outcome};
ghost use Rattle.terms.specs.Replies.{copied};
ghost use Rattle.terms.specs.declared.layer.Layer.TheVariants.{Set};
ghost use Rattle.pathways.specs.Meaning.{Meaning};
ghost use Rattle.pathways.specs.Limits.{Described};

use crate::dialect::Dialect;
use crate::set::Pathways;
use terms::fault::Fault;

// Its meaning is dialect, steering URI and pathways, of which there are at most 16.
pub trait Description: Pathways {
    ghost meaning: { Self → Meaning };

    fn dialect(&self) -> Dialect
        ensures value { result ≡ (meaning self.now).dialect }
        ensures described { Described (meaning self.now) (Self.Pathways.pathways self.now) };

    // The steering URI without fragment, copied to the front of `buffer`: its length.
    fn steering(&self, buffer: &mut [u8]) -> Result<usize, Fault>
        ensures reply { record { result = outcome result; buffer = buffer.new } ≡ copied (meaning self.now).steering Set buffer.old }
        ensures described { Described (meaning self.now) (Self.Pathways.pathways self.now) };
}
