ghost use Rattle.laws.specs.Laws.{EveryRun};

// The laws, of every run of the definitions: any first id, any calls with any arguments and list lengths, any source at each
// call. Nothing runs.
pub fn every_run()
    ensures { EveryRun }
{}
