// What holds of a mounted tier over every list of calls.
ghost use Rattle.pile.specs.Laws.{LawsHold};

// The laws of the calls as they are defined, for every tier that can be mounted and every list of reads, writes and syncs,
// refused ones included: transparency, what a sync leaves, order of recency, stack distance, that piles over equal devices answer
// alike, and that equal sums of capacities, and only they, serve equally many touches.
pub fn laws_hold()
    ensures { LawsHold }
{}
