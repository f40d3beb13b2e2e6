// What the version of a policy chooses (request 06): the one place where versions are compared.
#![tactic(auto)]

ghost use Rattle.std.specs.Prelude.{◌≡◌};
ghost use Rattle.model.specs.Versions.{carries_saying, names_actors};

// Whether acting as another carries its can-say rights.
pub fn carries_saying(version: usize) -> bool
    ensures { result ≡ carries_saying version }
{
    version == 1
}

// Whether the subject of a flat head with verb 0 joins the reach.
pub fn names_actors(version: usize) -> bool
    ensures { result ≡ names_actors version }
{
    carries_saying(version)
}
