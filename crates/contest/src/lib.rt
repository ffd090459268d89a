// The keeper of the two largest values of a run, and of where the largest was.
#![tactic(auto)]

ghost use Rattle.std.specs.Prelude.{◌≡◌, List, [], ◌∷◌};
ghost use Rattle.contest.specs.Kept.{Seen, seen, Kept, taken};

// Stays: the least i64 for a second that there is not, and no Option: `Kept` and `taken` say so of every keeper.
#[derive(Clone, Copy)]
pub struct Keeper {
    pub best: i64,
    pub second: i64,
    pub at: u32,
}

impl Keeper {
    // One value seen. The least i64 stands for a second until there is one.
    pub fn first(value: i64, at: u32) -> Self
        ensures { Kept (seen value at ∷ []) result }
    {
        Keeper {
            best: value,
            second: i64::MIN,
            at,
        }
    }

    // One value more. The second clause decides the answer also for a keeper whose second is above its best, which no list explains.
    pub fn take(self, value: i64, at: u32) -> Self
        ensures kept { (l : List Seen) → Kept l self → Kept (seen value at ∷ l) result }
        ensures value { result ≡ taken self value at }
    {
        if self.best < value {
            Keeper {
                best: value,
                second: self.best,
                at,
            }
        } else if self.second < value {
            Keeper {
                second: value,
                ..self
            }
        } else {
            self
        }
    }
}
