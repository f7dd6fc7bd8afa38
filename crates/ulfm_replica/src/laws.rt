// The law of machines that replay one log.
ghost use Rattle.ulfm_replica.specs.Replicas.{MachinesAgree, rules};

use ulfm_laws::meld::Packed;

/// Of two replicas, where the log with which one was fed begins with that of the other, what the one has seen begins with what the other has. So
/// what laws say of two histories of which one begins with the other holds among machines: decisions stay, and holders agree. When it runs it
/// does nothing.
pub fn machines_agree<P: Packed>()
    ensures { MachinesAgree (rules P.meld P.pack) }
{}
