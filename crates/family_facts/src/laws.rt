// Laws of the definitions: of functions that do nothing the contracts state them.
ghost use Rattle.std.specs.Prelude.{◌≡◌, ℕ, List};
ghost use Rattle.front_laws.specs.Fronts.{Front, IsFront};
ghost use Rattle.family_facts.specs.Family.{AreMembersDistinct};
ghost use Rattle.family_facts.specs.Fronts.{front_of};
ghost use Rattle.family_facts.specs.Verdicts.{AreDistinct, family_of};
ghost use Rattle.family_facts.specs.declared.verdict.File.{File};

/// The front of some bytes is the one that the function gives, and no other.
pub fn one_front_of()
    ensures is { (name bytes : List ℕ) → IsFront name bytes (front_of name bytes) }
    ensures no_other { (name bytes : List ℕ) → (front : Front) → IsFront name bytes front
        → front ≡ front_of name bytes }
{
    front_laws::one_front();
}

/// No two modules of the files over the built-in ones have one name, where no two files do.
pub fn names_differ()
    ensures { (files : List File) → AreDistinct files → AreMembersDistinct (family_of files) }
{}
