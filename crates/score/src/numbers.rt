// The pair numbers of a deque: from front to back they fall by one, save where a first set's repeat stands.
ghost use Rattle.std.specs.Prelude.{◌≡◌};
ghost use Rattle.score.specs.Deque.{content};
ghost use Rattle.score.specs.Numbers.{misnumbered};

use super::ScoreDeque;

// Whether two neighbours' numbers neither fall by one nor are equal, or more than one pair of neighbours is equal. Nothing is added to a
// number: it may be the largest of its type.
pub fn is_misnumbered(d: ScoreDeque) -> bool
    ensures { result ≡ misnumbered (content d) }
{
    let mut equal: usize = 0;
    for two in d.scores().windows(2) {
        let ahead = two[0].pair_number;
        let behind = two[1].pair_number;
        if ahead < behind || 1 < ahead - behind {
            return true;
        }
        if ahead == behind {
            equal += 1;
        }
    }
    1 < equal
}
