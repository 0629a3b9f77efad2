// The journal for a Rattle host, under one name: the thirteen calls on a cluster, `apply` over any of them, a driver's `recover`, and the converter.
#![tactic(auto)]

pub use apply::apply;
pub use converter::convert::convert;
pub use driver::recover;
pub use export_calls::export::export;
pub use issue::issue;
pub use local_calls::reassign::reassign;
pub use local_calls::stop::stop;
pub use reading_calls::read::read;
pub use register_calls::open::open;
pub use register_calls::take::take;
pub use replica_calls::calls::{note, prepare, send, trim};
pub use replica_calls::copy::copy;
pub use restore::restore;
