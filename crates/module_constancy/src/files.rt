// What is known of other modules.
ghost use Rattle.std.specs.Prelude.{◌≡◌, ℕ, Bool, List};

/// What is known of the files of modules.
pub trait Files {
    /// Which of them are constant, by the names of their modules.
    ghost constant: { Self → List ℕ → Bool };

    /// Whether the file of a module is constant, by the name of the module.
    fn is_constant(&self, name: &str) -> bool
        ensures { result ≡ constant self.now name.now };
}
