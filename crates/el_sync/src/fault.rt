// Why a line of the node ends the server.
use el_model::QueryFault;

/// Why a turn stops the server: in a line of the node a call on the index's device failed, or memory ran out.
pub type StepFault = QueryFault;
