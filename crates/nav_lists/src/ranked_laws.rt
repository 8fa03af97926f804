ghost use Rattle.std.specs.Prelude.{◌≡◌, ◌↔◌, ◌++◌, List};
ghost use Rattle.std.specs.List.{Contains};
ghost use Rattle.nav_lists.specs.Ranks.{AreTold, IsRankedList, ranked_of};

use crate::list::Ranked;

/// `ranked_of` is a ranked list of the values, the only one if values equal in rank and choice are
/// equal, and then it depends on the set of the values alone. Values may be added in several steps.
pub fn ranking<K: Ranked>()
    ensures are { (values : List K)
        → IsRankedList K.cmp K.choice (Contains values) (ranked_of K.cmp K.choice values) }
    ensures only { (values xs : List K) → AreTold K.cmp K.choice (Contains values)
        → IsRankedList K.cmp K.choice (Contains values) xs
        → xs ≡ ranked_of K.cmp K.choice values }
    ensures set { (some other : List K) → AreTold K.cmp K.choice (Contains some)
        → ((i : K) → Contains some i ↔ Contains other i)
        → ranked_of K.cmp K.choice some ≡ ranked_of K.cmp K.choice other }
    ensures again { (some more : List K)
        → ranked_of K.cmp K.choice (ranked_of K.cmp K.choice some ++ more)
        ≡ ranked_of K.cmp K.choice (some ++ more) }
{}
