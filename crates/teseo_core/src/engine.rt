//! The store as an engine of one owner.
//!
//! 1. Each call hands on to one of `Core`'s own, so that its proof speaks of one call, and this file of traits alone.

ghost use Rattle.std.specs.Prelude.{IsSome};
ghost use Rattle.graph_model.specs.declared.write.Write.TheVariants as writes;
ghost use Rattle.graph_model.specs.OwnerCalls.{account_here};
ghost use Rattle.graph_model.specs.OwnerLaws.{DidBegin, DidWrite, DidRead, DidCommit, DidAbort, DidServe};
ghost use Rattle.graph_model.proofs.OwnerLemmas.{begins_by, writes_by, reads_by, commits_by, aborts_by, serves_by};
ghost use Rattle.teseo_core.specs.Keeping.{KeepsService};
ghost use Rattle.teseo_core.specs.Placed.{FullIsExact};
ghost use Rattle.teseo_core.specs.Serving.{ServesTurn};

use crate::store::Core;
use graph_model::{
    BeginRefusal, Begun, Cursor, Engine, Kind, LoadEngine, LoadRefusal, NoMemory, Refusal, Rows64,
    StepEngine, VertexEngine, Write, Writes,
};

impl Engine for Core {
    ghost account = { λ s. account_here s.core };

    ghost served = { λ s. s.core.served };

    ghost did_begin = { λ s r t. DidBegin s.core r t.core × KeepsService s t };

    ghost did_write = { λ s w r t. DidWrite s.core w r t.core × KeepsService s t × FullIsExact s w r t };

    ghost did_read = { λ s t. DidRead s.core t.core × KeepsService s t };

    ghost did_commit = { λ s r t. DidCommit s.core r t.core × KeepsService s t };

    ghost did_abort = { λ s t. DidAbort s.core t.core × KeepsService s t };

    ghost did_serve = { λ s r t. DidServe s.core t.core × ServesTurn s t r };

    fn kind(&self) -> Kind {
        self.kind_here()
    }

    fn begin(&mut self) -> Result<Begun, BeginRefusal> {
        self.begin_here()
    }

    fn add_vertex(&mut self, v: u64) -> Result<(), Refusal> {
        self.make_write(Write::AddVertex { v })
    }

    fn add_edge(&mut self, u: u64, v: u64, weight: u64) -> Result<(), Refusal> {
        self.make_write(Write::AddEdge { u, v, weight })
    }

    fn set_edge(&mut self, u: u64, v: u64, weight: u64) -> Result<(), Refusal> {
        self.make_write(Write::SetEdge { u, v, weight })
    }

    fn drop_edge(&mut self, u: u64, v: u64) -> Result<(), Refusal> {
        self.make_write(Write::DropEdge { u, v })
    }

    fn has_vertex(&mut self, v: u64) -> bool {
        self.sees_vertex(v)
    }

    fn weight(&mut self, u: u64, v: u64) -> Option<u64> {
        self.sees_weight(u, v)
    }

    fn scan_step(&mut self, cursor: &mut Cursor, rows: &mut Rows64) {
        self.scan_here(cursor, rows);
    }

    fn commit(&mut self) -> Option<u64> {
        self.commit_here()
    }

    fn abort(&mut self) {
        self.abort_here();
    }

    fn service_step(&mut self) -> Result<bool, NoMemory> {
        self.serve_here()
    }

    ghost begins = { λ s t r did. begins_by s.core t.core r did.0 };

    ghost wrote = { λ s t w r did. writes_by s.core t.core w r did.0 };

    ghost reads = { λ s t did. reads_by s.core t.core did.0 };

    ghost commits = { λ s t r did. commits_by s.core t.core r did.0 };

    ghost aborts = { λ s t did. aborts_by s.core t.core did.0 };

    ghost serves = { λ s t r did. serves_by s.core t.core did.0 };
}

impl VertexEngine for Core {
    fn drop_vertex(&mut self, v: u64) -> Result<(), Refusal> {
        self.make_write(Write::DropVertex { v })
    }
}

impl StepEngine for Core {
    ghost use Rattle.std.specs.Prelude.{refl};

    ghost core = { λ s. s.core };

    fn select(&mut self, pass: u32) {
        self.select_here(pass);
    }

    ghost accounts = { λ s. refl };

    ghost counts = { λ s. refl };

    ghost begins_here = { λ s t r did. did.0.here };

    ghost writes_here = { λ s t w r did. did.0.here };

    ghost reads_here = { λ s t did. did.0.here };

    ghost commits_here = { λ s t r did. did.0.here };

    ghost aborts_here = { λ s t did. did.0.here };

    ghost serves_here = { λ s t r did. did.0.here };
}

impl LoadEngine for Core {
    fn load(&mut self, load: Writes) -> Result<(), LoadRefusal> {
        self.load_here(load)
    }
}
