//! Theorems about the definitions, each on a function with an empty body.

ghost use Rattle.std.specs.Prelude.{◌≡◌, ◌∷◌, ◌++◌, ℕ, List, codes};
ghost use Rattle.bridge_engine.specs.Job.{IsJob};
ghost use Rattle.bridge_engine.specs.Options.{Choice, OptionsGiven, GiveValues, Spells};
ghost use Rattle.bridge_engine.specs.declared.job.Job.TheVariants.{Seed};
ghost use Rattle.bridge_engine.specs.declared.job.SeedJob.{SeedJob};

/// Arguments spell at most one list of options.
pub fn words_spell_options_in_one_way()
    ensures { (words : List (List ℕ)) (options others : List Choice)
        → Spells words options → Spells words others → options ≡ others }
{}

/// Arguments give at most one set of option values.
pub fn words_give_values_in_one_way()
    ensures { (words : List (List ℕ)) (given other : OptionsGiven)
        → GiveValues words given → GiveValues words other → given ≡ other }
{}

/// Arguments that begin with a value of `--from` name a generated capture only if it is `seed`.
pub fn words_of_inputs_ask_for_no_seed()
    ensures { (from : List ℕ) (more : List (List ℕ)) (job : SeedJob)
        → IsJob ((codes "--from=" ++ from) ∷ more) (Seed job) → from ≡ codes "seed" }
{}
