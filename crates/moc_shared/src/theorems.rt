//! Theorems about every shared map. The functions have no effect at run time.
ghost use Rattle.moc_shared.specs.Abandoned.{AbandonedPartsStayHeld};
ghost use Rattle.moc_shared.specs.Clients.{ClientsStandForThemselves};

/// The parts of an abandoned holding stay held: each lock word has the mark of the client, and no step of another
/// client removes it.
pub fn abandoned_parts_stay_held()
    ensures { AbandonedPartsStayHeld }
{}

/// A client, and the client of a holding, has the number of its record, and the record stands for the client.
pub fn clients_stand_for_themselves()
    ensures { ClientsStandForThemselves }
{}
