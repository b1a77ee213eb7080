//! The settings of a run.
ghost use Rattle.std.specs.Prelude.{◌≡◌, ◌<◌, ◌≤◌, ◌↔◌, IsOk, IfOk};

use collector::CellKind;
use heap::{BadConfig, Config};
use std::marker::Model;
use trace_session::MOST_PIECE;

/// How many bytes a read asks for where nothing else is said.
const PIECE: u32 = 4096;

/// The sizes of the heap, the number of workers that collect, their cells, how many bytes one read asks for, and the seed of the
/// hash by which names are found.
#[derive(Clone, Copy, Debug)]
pub struct RunConfig {
    config: Config,
    workers: u32,
    kind: CellKind,
    piece: u32,
    seed: u128,
}

impl Model for RunConfig {
    ghost use Rattle.std.specs.Prelude.{◌<◌, ◌≤◌};
    ghost use Rattle.trace_driver.specs.RunValue.{RunValue, run_code};

    ghost Value = { RunValue };

    ghost coded = { run_code };

    ghost view = { λ r. record { config = r.config; workers = r.workers; kind = r.kind; piece = r.piece; seed = r.seed } };

    ghost invariant = { λ r. ((0 < r.workers) × (r.workers ≤ 16)) × ((0 < r.piece) × (r.piece ≤ 65536)) };

    ghost inverse = { λ v. record { config = v.config; workers = v.workers; kind = v.kind; piece = v.piece; seed = v.seed } };
}

impl RunConfig {
    /// A run with so many workers, 1 to 16, whose cells are of this kind where they are threads. A read asks for 4,096 bytes,
    /// and the seed is 0.
    pub fn new(config: Config, workers: u64, kind: CellKind) -> Result<RunConfig, BadConfig>
        ensures ok { IfOk result
            (λ run. run ≡ record { config = config; workers = workers; kind = kind; piece = 4096; seed = 0 }) }
        ensures in_range { IsOk result ↔ ((0 < workers) × (workers ≤ 16)) }
    {
        if workers == 0 || workers > 16 {
            return Err(BadConfig);
        }
        Ok(RunConfig {
            config,
            workers: workers as u32,
            kind,
            piece: PIECE,
            seed: 0,
        })
    }

    /// The same run, in which a read asks for so many bytes, 1 to 65,536.
    pub fn with_piece(self, bytes: u64) -> Result<RunConfig, BadConfig>
        ensures ok { IfOk result (λ run. run ≡ record self { piece = bytes }) }
        ensures in_range { IsOk result ↔ ((0 < bytes) × (bytes ≤ 65536)) }
    {
        if bytes == 0 || bytes > MOST_PIECE as u64 {
            return Err(BadConfig);
        }
        Ok(RunConfig {
            piece: bytes as u32,
            ..self
        })
    }

    /// The same run, whose names are hashed with this seed. Who takes traces of others should draw it at random for each run, so that
    /// nobody can choose names that collide.
    pub fn with_seed(self, seed: u128) -> RunConfig
        ensures { result ≡ record self { seed = seed } }
    {
        RunConfig { seed, ..self }
    }

    /// The sizes of the heap.
    pub fn config(&self) -> Config
        ensures { result ≡ self.now.config }
    {
        let _workers = self.workers;
        self.config
    }

    /// The number of workers.
    pub fn workers(&self) -> u32
        ensures workers { result ≡ self.now.workers }
        ensures some { 0 < result }
        ensures most { result ≤ 16 }
    {
        let _config = self.config;
        self.workers
    }

    /// The kind of the cells that threads share.
    pub fn kind(&self) -> CellKind
        ensures { result ≡ self.now.kind }
    {
        let _workers = self.workers;
        self.kind
    }

    /// How many bytes one read asks for.
    pub fn piece(&self) -> usize
        ensures piece { result ≡ self.now.piece }
        ensures some { 0 < result }
        ensures most { result ≤ 65536 }
    {
        let _workers = self.workers;
        self.piece as usize
    }

    /// The seed of the hash by which names are found.
    pub fn seed(&self) -> u128
        ensures { result ≡ self.now.seed }
    {
        let _workers = self.workers;
        self.seed
    }
}
