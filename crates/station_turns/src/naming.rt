use std::marker::Brand;

/// Which run it is. Each call of a run picks it, so that all its stations agree on it.
pub trait Naming {
    ghost use Rattle.station_turns.specs.Naming.{RunName};

    ghost name: { RunName };
}

impl Naming for Brand {
    ghost use Rattle.std.specs.Prelude.{[]};
    ghost use Rattle.scenario_file.specs.Reading.{smallest};
    ghost use Rattle.station_turns.specs.Naming.{no_source};

    ghost name = { record { scenario = smallest; inputs = []; turns = 1; source = no_source } };
}

/// Whose station it is. Whoever puts a station behind a lock picks it, so that all who take the lock agree on it.
pub trait Owner {
    ghost use Rattle.std.specs.Prelude.{ℕ};

    ghost actor: { ℕ };
}

impl Owner for Brand {
    ghost actor = { 0 };
}
