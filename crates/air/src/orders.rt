//! Which of the PDUs that wait a Take lets out.

ghost use Rattle.std.specs.Prelude.{◌≡◌, ℕ, ◌<◌, Bool, false};
ghost use Rattle.air.specs.Kept.{drawn, odd, drawn_within};
ghost use Rattle.std.specs.Option.{SomeIff};

/// Which of the PDUs that wait a Take lets out, and whether the air keeps it.
pub trait Order {
    // The place, counted from 0 at the oldest, by the draw and by how many wait.
    ghost place: { ℕ → ℕ → ℕ };

    ghost keeps: { ℕ → Bool };

    /// None only where nothing waits.
    fn place(draw: u16, held: usize) -> Option<usize>
        ensures { SomeIff result (0 < held) (place draw held) };

    fn keeps(draw: u16) -> bool
        ensures { result ≡ keeps draw };

    // What waits there comes out.
    ghost within: { (draw held : ℕ) → 0 < held → place draw held < held };
}

/// Lets the oldest out.
pub struct Oldest;

impl Order for Oldest {
    ghost place = { λ _ _. 0 };

    ghost keeps = { λ _. false };

    ghost within = { λ _ _ some. some };

    fn place(_draw: u16, held: usize) -> Option<usize> {
        (held > 0).then_some(0)
    }

    fn keeps(_draw: u16) -> bool {
        false
    }
}

/// Which one comes out is drawn, and an odd draw keeps it.
pub struct Drawn;

impl Order for Drawn {
    ghost place = { drawn };

    ghost keeps = { odd };

    ghost within = { drawn_within };

    fn place(draw: u16, held: usize) -> Option<usize> {
        usize::from(draw / 2).checked_rem(held)
    }

    fn keeps(draw: u16) -> bool {
        draw % 2 == 1
    }
}
