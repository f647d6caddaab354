// A noise set's products moved to other sites.
#![tactic(auto)]

ghost use Rattle.std.specs.Prelude.{◌≡◌};
ghost use Rattle.items.specs.Lists.{at};
ghost use Rattle.noise_remapping.specs.RemapAnswers.{told, remap_set};

use items::{SITE_COUNT, Site};
use refusal::Refusal;
use term_sets::NoiseSet;
use term_writing::adding::Adding;

// Every term with its products moved to the targets of their sites, added up; the first product refused refuses the call, of one term the left
// before the right.
pub fn remap_qubits(s: &NoiseSet, targets: &[Site; SITE_COUNT]) -> Result<NoiseSet, Refusal>
    ensures { told s.now result ≡ remap_set (at targets.now) s.now }
{
    if !s.is_valid(false) {
        return Err(Refusal::Malformed);
    }
    let mut sum = Adding::new();
    for x in s.held() {
        let left = remapping::remap_qubits(&x.key.0, targets)?;
        let right = remapping::remap_qubits(&x.key.1, targets)?;
        sum.add((left, right), x.coefficient)?;
    }
    sum.finished()
}
