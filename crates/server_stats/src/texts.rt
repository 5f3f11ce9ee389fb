//! The two texts that tell what a server has counted: a line, and the metrics of Prometheus (docs/OPERATING.md, "Numbers").

mod line;
mod metric;
mod metrics;
mod report;

pub use line::line_of;
pub use metrics::metrics_of;
pub use report::Report;
