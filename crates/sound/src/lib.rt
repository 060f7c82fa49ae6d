// Whether a store is sound (document 01, "The store is unsound when .."): it holds exactly the numbers of a sound board.
#![tactic(auto)]

ghost use Rattle.std.specs.Prelude.{◌≡◌};
ghost use Rattle.sound.specs.Sound.{sound};

// Whether the store is sound. The scan touches each number about once.
pub fn sound(store: &[u64]) -> bool
    ensures { result ≡ sound store.now }
{
    scan::scan(store)
}
