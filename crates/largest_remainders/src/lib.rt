// Sharing by largest remainders, free of what is shared: the definitions, their laws, and the search for the key from which on exactly so many keys are.
#![tactic(auto)]

ghost use Rattle.std.specs.Prelude.{◌≡◌, ℕ, ◌+◌, ◌≤◌, ◌<◌, length};
ghost use Rattle.largest_remainders.specs.Inner.{key_limit, key_at, Searchable};
ghost use Rattle.largest_remainders.specs.Ranks.{keys_from_of};

// Keys are below this.
const KEY_LIMIT: u64 = 1 << 63;

// So many turns of the search go by how the keys are spread.
const SPREAD_TURNS: u64 = 6;

// A number, and how many keys are that or above.
#[derive(Clone, Copy)]
struct Edge {
    at: u64,
    keys: u64,
}

// How many keys are `least` or above: with `lift` added, those and no others have bit 63. One addition and one shift a key, and no branch.
fn keys_from(keys: &[u64], least: u64) -> u64
    requires { (least ≤ key_limit) × ((i : ℕ) → i < length keys.now → key_at keys.now i < key_limit) }
    ensures { result ≡ keys_from_of (length keys.now) (key_at keys.now) least }
{
    let lift = KEY_LIMIT - least;
    let mut many = 0;
    for key in keys {
        many += (*key + lift) >> 63;
    }
    many
}

// A number between two, with enough keys from `low` on and too few from `high` on: where `wanted` keys would be from, were the keys between them spread evenly.
// After some turns it is the one half way, so that the turns stay few however they are spread.
fn between(low: Edge, high: Edge, wanted: u64, turn: u64) -> u64
    requires { (low.at + 1 < high.at) × (high.keys < wanted) × (wanted ≤ low.keys) }
    ensures { (low.at < result) × (result < high.at) }
{
    let step = (high.at - low.at) / (low.keys - high.keys) * (low.keys - wanted);
    if step == 0 || SPREAD_TURNS <= turn {
        low.at + (high.at - low.at) / 2
    } else {
        low.at + step
    }
}

// A number such that exactly `wanted` keys are that or above: the first that is met.
pub fn threshold(keys: &[u64], top: u64, wanted: u64) -> u64
    requires { Searchable keys.now (length keys.now) top wanted }
    ensures { keys_from_of (length keys.now) (key_at keys.now) result ≡ wanted }
{
    if wanted == 0 {
        return top;
    }
    let mut low = Edge {
        at: 0,
        keys: keys.len() as u64,
    };
    let mut high = Edge { at: top, keys: 0 };
    let mut turn = 0;
    // No `for`: the edges close in, by how the keys are spread and then by halves.
    while 1 < high.at - low.at {
        let at = between(low, high, wanted, turn);
        let middle = Edge {
            at,
            keys: keys_from(keys, at),
        };
        turn += 1;
        if middle.keys == wanted {
            return at;
        }
        if middle.keys < wanted {
            high = middle;
        } else {
            low = middle;
        }
    }
    low.at
}
