//! Rows that a worker adds and sweeps.

use cases_workers::{AddVertices, EngineCase, ServeOften};
use graph_model::VertexEngine;

/// Adds vertices in one transaction, and takes turns of the service, which sweep the records of that.
#[derive(Clone, Copy, Debug, PartialEq, Eq)]
pub struct AddAndServe {
    pub vertices: AddVertices,
    pub service: ServeOften,
}

impl EngineCase for AddAndServe {
    fn run<E: VertexEngine>(&mut self, engine: &mut E) {
        self.vertices.run(engine);
        self.service.run(engine);
    }
}
