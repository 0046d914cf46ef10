ghost use Rattle.mr_exchange.specs.Laws.{CubesAreInOrder, NewStatesAreSound, AllowedEventsKeepSoundness, ReachedStatesAreSound, EventsLeadToOneState, RowsOfSoundStatesExclude, RowsStay, EachCubeHasOnePass, KnownRowsStayOutOfNodes, WordsAreSmall, PassesHaveFacts};

/// The cubes of a depth are given by the numbers below their count, in lexicographic order.
pub fn cubes_are_in_order()
    ensures { CubesAreInOrder }
{}

/// A new state is sound.
pub fn new_states_are_sound()
    ensures { NewStatesAreSound }
{}

/// An event that is allowed leads from a sound state to a sound one.
pub fn allowed_events_keep_soundness()
    ensures { AllowedEventsKeepSoundness }
{}

/// Whatever the events, the state that they lead to is sound.
pub fn reached_states_are_sound()
    ensures { ReachedStatesAreSound }
{}

/// A list of events leads to one state.
pub fn events_lead_to_one_state()
    ensures { EventsLeadToOneState }
{}

/// In a sound state the clause of no row has a completion.
pub fn rows_of_sound_states_exclude()
    ensures { RowsOfSoundStatesExclude }
{}

/// A slot that has a row keeps it.
pub fn rows_stay()
    ensures { RowsStay }
{}

/// Each cube is claimed by one pass.
pub fn each_cube_has_one_pass()
    ensures { EachCubeHasOnePass }
{}

/// No pass opens a node that has the clause of a short row that it knows.
pub fn known_rows_stay_out_of_nodes()
    ensures { KnownRowsStayOutOfNodes }
{}

/// Neither word is far above what it counts.
pub fn words_are_small()
    ensures { WordsAreSmall }
{}

/// What a sound state says of a live pass by itself.
pub fn passes_have_facts()
    ensures { PassesHaveFacts }
{}
