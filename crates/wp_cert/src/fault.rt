ghost use Rattle.std.specs.Prelude.{◌≡◌, Some};
ghost use Rattle.std.specs.Fmt.{WritesOnOk};
ghost use Rattle.std.specs.List.{flat_map};
ghost use Rattle.wp_model.specs.Journal.{number_after_space};
ghost use Rattle.wp_cert.specs.FaultTexts.{cert_fault_text, cert_why_text, is_at_node};

use crate::tree::{CertFault, CertWhy};
use std::fmt;
use wp_pairs::Batch;

// Writes the orders of a batch, each after a space.
fn write_batch<W: fmt::Write>(f: &mut fmt::Formatter<W>, batch: Batch) -> fmt::Result
    ensures { WritesOnOk W.write_str_gives f.old result (flat_map number_after_space batch) f.new }
{
    for order in 0..64 {
        if batch.has(order) {
            write!(f, " {order}")?;
        }
    }
    Ok(())
}

impl fmt::Display for CertWhy {
    ghost output = { λ why. Some (cert_why_text why) };

    fn fmt<W: fmt::Write>(&self, f: &mut fmt::Formatter<W>) -> fmt::Result {
        match self {
            CertWhy::NotJson => f.write_str("not-json"),
            CertWhy::BadShape => f.write_str("bad-shape"),
            CertWhy::OutOfRange => f.write_str("out-of-range"),
            CertWhy::BadCuts => f.write_str("bad-cuts"),
            CertWhy::Cut => f.write_str("cut"),
            CertWhy::SplitKept => f.write_str("split-kept"),
            CertWhy::DualsLength => f.write_str("duals-length"),
            CertWhy::DecidedPrices => f.write_str("decided-prices"),
            CertWhy::SumLow => f.write_str("sum-low"),
            CertWhy::NotFeasible(batch) => {
                f.write_str("not-feasible")?;
                write_batch(f, *batch)
            }
            CertWhy::BadMarks => f.write_str("bad-marks"),
            CertWhy::NotTight(order) => write!(f, "not-tight {order}"),
            CertWhy::BadPair => f.write_str("bad-pair"),
            CertWhy::NotDead(order) => write!(f, "not-dead {order}"),
            CertWhy::Memory => f.write_str("memory"),
        }
    }
}

impl CertWhy {
    // Whether a certificate is refused at a node of its tree.
    fn is_at_node(&self) -> bool
        ensures { result ≡ is_at_node self.now }
    {
        match self {
            CertWhy::NotJson | CertWhy::BadShape | CertWhy::OutOfRange | CertWhy::Memory => false,
            _ => true,
        }
    }
}

impl fmt::Display for CertFault {
    ghost output = { λ fault. Some (cert_fault_text fault) };

    fn fmt<W: fmt::Write>(&self, f: &mut fmt::Formatter<W>) -> fmt::Result {
        let CertFault { node, why } = self;
        if why.is_at_node() {
            write!(f, "node {node} {why}")
        } else {
            write!(f, "{why}")
        }
    }
}
