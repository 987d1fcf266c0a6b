//! A node that is up by itself.
ghost use Rattle.settle_laws.specs.Begun.{NodeBegins};
ghost use Rattle.settle_laws.specs.Inputs.{InputsHandOn};
ghost use Rattle.settle_laws.specs.Steps.{DeliveryFalls, ListsAgree, TickCosts};

/// Whatever packet of the wire is delivered first, and whatever else is there: what stands of the node is
/// kept, its load falls by at least one, and how far each pair of producer and entity is stays.
pub fn delivery_falls()
    ensures { DeliveryFalls }
{}

/// The leases of a world whose lists go on with what the node tells agree with it as before: each entry of
/// a shard is of one that it hosts afterwards.
pub fn lists_agree()
    ensures { ListsAgree }
{}

/// A tick with nothing on the wire keeps what stands, costs at most six for each shard and each number
/// that is queued and not confirmed, and sends the first such number of each pair again.
pub fn tick_costs()
    ensures { TickCosts }
{}

/// A node that comes up alone, with lists that nobody holds: after its first three deliveries it leads, is
/// the only region, hosts nothing, and its load is one for each name.
pub fn node_begins()
    ensures { NodeBegins }
{}

/// Of the world: an input at a node whose posts the wire has room for. They join the wire with the next
/// numbers, the lists go on with what is told, the node is put back, and nothing else changes.
pub fn inputs_hand_on()
    ensures { InputsHandOn }
{}
