// What holds of every put, change and remove of a sound logbook.
ghost use Rattle.tree.specs.Calls.{CallDone, FewSteps, OneFree, Refuses, RemoveGoes, RoomTold, StaysSettled, StaysSound};
ghost use Rattle.tree.specs.Elsewhere.{LeavesOthers, LeavesOutside};

// It stays sound; granted, its book is the one with the call done; refused for anything but power or an unsettled word, it has stored
// nothing. It is refused for room exactly where its split finds fewer than two free leaves. A settled memory stays settled, no call takes
// more than 87 steps, a key that is there can be removed while there is power, and one leaf stays free.
pub fn calls_stand()
    ensures sound { StaysSound }
    ensures done { CallDone }
    ensures refuses { Refuses }
    ensures room { RoomTold }
    ensures settled { StaysSettled }
    ensures few { FewSteps }
    ensures remove { RemoveGoes }
    ensures free { OneFree }
{}

// It stores only into the link to the key's leaf, the count and the free slots of this leaf, and free leaves. All other words it leaves
// alone, whatever they hold.
pub fn others_stand()
    ensures others { LeavesOthers }
    ensures outside { LeavesOutside }
{}
