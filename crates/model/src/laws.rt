//! What holds of the definitions: the contract of each function here is a theorem on them, and its body is empty.
ghost use Rattle.model.specs.Rows.{config_of, first_trace, first_output, pointer_trace, pointer_output, cycle_trace, cycle_output, remembered_trace, remembered_output, dead_old_trace, dead_old_output, large_trace, large_output, full_trace, full_output, ageing_trace, ageing_output, no_generation_trace, no_generation_output, made_old_trace, made_old_output, two_mutators_trace, two_mutators_output, block_left_trace, block_left_output, get_trace, get_output};
ghost use Rattle.model.specs.Laws.{Writes, Faults, ReachedListIsExact, LiveCountIsOne, LiveWordsAreOne, OldSlotsAreExact, DestCountIsExact};
ghost use Rattle.model.specs.DestinationList.{DestinationListIsExact};
ghost use Rattle.model.specs.declared.kind.Kind.TheVariants as kind;

/// Each worked trace writes its output, and the last one has a fault in its fifth command.
pub fn worked_rows()
    ensures first { Writes (config_of 512 1 4 1 2) first_trace first_output }
    ensures pointer { Writes (config_of 64 1 4 1 2) pointer_trace pointer_output }
    ensures cycle { Writes (config_of 64 1 4 1 2) cycle_trace cycle_output }
    ensures remembered { Writes (config_of 64 1 4 2 2) remembered_trace remembered_output }
    ensures dead_old { Writes (config_of 64 1 4 2 2) dead_old_trace dead_old_output }
    ensures large { Writes (config_of 64 1 4 2 2) large_trace large_output }
    ensures full { Writes (config_of 64 1 1 2 2) full_trace full_output }
    ensures ageing { Writes (config_of 64 1 4 2 2) ageing_trace ageing_output }
    ensures made_old { Writes (config_of 64 1 4 2 2) made_old_trace made_old_output }
    ensures two_mutators { Writes (config_of 16 2 1 2 2) two_mutators_trace two_mutators_output }
    ensures block_left { Writes (config_of 64 1 2 2 2) block_left_trace block_left_output }
    ensures get { Writes (config_of 64 1 4 2 2) get_trace get_output }
    ensures no_generation { Faults (config_of 64 1 4 1 2) no_generation_trace no_generation_output 5 kind.NoGeneration }
{}

/// The list of what is reached has exactly what the relation says, each once.
pub fn reached_list_is_exact()
    ensures { ReachedListIsExact }
{}

/// A graph has one number of live objects.
pub fn live_count_is_one()
    ensures { LiveCountIsOne }
{}

/// A graph has one size of its small live objects together.
pub fn live_words_are_one()
    ensures { LiveWordsAreOne }
{}

/// The list of old slots has exactly the pointers from older objects to younger ones.
pub fn old_slots_are_exact()
    ensures { OldSlotsAreExact }
{}

/// The number of destinations is that of the distinct places where survivors go.
pub fn dest_count_is_exact()
    ensures { DestCountIsExact }
{}

/// The list of destinations has each place where survivors go, once, by rising numbers.
pub fn destination_list_is_exact()
    ensures { DestinationListIsExact }
{}
