//! Laws over the definitions alone. Each is the contract of a function that does nothing.

ghost use Rattle.dvg_clocks.specs.Example.{WorkedClocks};
ghost use Rattle.dvg_clocks.specs.Laws.{ClocksOnCircuit, TightForecast, WordsAreTaken};

/// A good frame over good shapes takes its sum of clocks on the circuit: never more than the most, and when it has halted, no less than
/// the least.
pub fn clocks_on_circuit()
    ensures { ClocksOnCircuit }
{}

/// Words are a measure as clocks are: what a run fetches is what it takes of them.
pub fn words_are_taken()
    ensures { WordsAreTaken }
{}

/// At unknown scale no tighter forecast is right.
pub fn tight_forecast()
    ensures { TightForecast }
{}

/// The worked example takes 1,044 clocks.
pub fn worked_clocks()
    ensures { WorkedClocks }
{}
