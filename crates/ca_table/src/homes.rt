ghost use Rattle.std.specs.Prelude.{◌≡◌, ◌<◌, ◌≤◌, ℕ, true, false, cond, eqb, get_or};
ghost use Rattle.ca_commit.specs.Contents.{home};

/// Some of the sixteen banks, or of the sixteen shards. All of them lie from `first` up to `end`, so whoever goes over
/// them looks there alone: an event mostly has one or two.
#[derive(Clone, Copy)]
pub struct Homes {
    first: u64,
    end: u64,
    flags: [bool; 16],
    ghost first_small: { first ≤ 16 },
    ghost end_small: { end ≤ 16 },
    ghost none_before: { (i : ℕ) → i < first → get_or flags i false ≡ false },
    ghost none_after: { (i : ℕ) → end ≤ i → get_or flags i false ≡ false },
}

impl Homes {
    ghost use Rattle.ca_table.specs.Homes.{has_home};

    /// None of them.
    pub fn none() -> Homes
        ensures { (i : ℕ) → has_home result i ≡ false }
    {
        Homes {
            first: 16,
            end: 0,
            flags: [false; 16],
        }
    }

    /// The home of that port or wait is among them from now on.
    pub fn add(&mut self, number: u64)
        ensures { (i : ℕ) → has_home self.new i ≡ cond (eqb (home number) i) true (has_home self.old i) }
    {
        let home = number % 16;
        self.first = self.first.min(home);
        self.end = self.end.max(home + 1);
        self.flags[home as usize] = true;
    }

    /// Whether the home of that port or wait is among them.
    pub fn has(&self, number: u64) -> bool
        ensures { result ≡ has_home self.now (home number) }
    {
        self.flags[(number % 16) as usize]
    }

    /// None of them lies before that one.
    pub(crate) fn first(&self) -> u64
        ensures small { result ≤ 16 }
        ensures none { (i : ℕ) → i < result → has_home self.now i ≡ false }
    {
        self.first
    }

    /// None of them is that one or lies beyond it.
    pub fn end(&self) -> u64
        ensures small { result ≤ 16 }
        ensures none { (i : ℕ) → result ≤ i → has_home self.now i ≡ false }
    {
        self.end
    }
}
