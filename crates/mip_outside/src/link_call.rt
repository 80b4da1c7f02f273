use crate::asked::Asked;
use crate::put_fault::PutFault;

/// A call of a link: what was asked, and the fault where it was not granted.
#[derive(Clone, Copy, Debug, PartialEq, Eq)]
pub struct LinkCall {
    pub asked: Asked,
    pub fault: Option<PutFault>,
}
