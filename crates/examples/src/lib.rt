// Worked examples: a table of them stands as a theorem about the definitions, and the others run as tests.
#![tactic(auto)]

ghost use Rattle.examples.specs.Table.{AllAsListed, examples};

// Every example of the table comes out as listed there.
pub fn examples_come_out()
    ensures { AllAsListed examples }
{}

#[cfg(test)]
mod notations;
#[cfg(test)]
mod tag_sets;
#[cfg(test)]
mod tests;
