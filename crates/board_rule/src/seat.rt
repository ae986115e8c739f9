//! What both kinds of seat do.
ghost use Rattle.board_rule.specs.OnBoard.{IsOn, layout};
ghost use Rattle.std.specs.Prelude.{◌≡◌, ℕ, Bool, ◌+◌, ◌<◌};
ghost use Rattle.atomic_table.specs.Seated.{TableId};
ghost use Rattle.pw_graph.specs.Layout.{event_count, sample_place};
ghost use Rattle.board_rule.specs.declared.view.View.{View};
ghost use Rattle.board_rule.specs.Layout.{first};
ghost use Rattle.board_rule.specs.events.Bits.{woke_of};
ghost use Rattle.board_rule.specs.Steps.{IsMember, cycle_of, Lowers, lowered, Triggers, triggered, Claims, claimed, IsReadyToFinish};
ghost use Rattle.board_rule.specs.Steps.{finished};
ghost use Rattle.board_rule.specs.events.EventSteps.{Draws, draws, StoresEvent, event_stored};
ghost use Rattle.board_rule.specs.buffers.SampleWords.{IsTable, packed};
ghost use Rattle.board_rule.specs.buffers.EndViews.{read_of, pool_at, pool_of};
ghost use Rattle.board_rule.specs.buffers.ReaderSteps.{LoadsAsReader, loaded_as_reader, IsPublished, IsReading, LoadsSample, sample_loaded};
ghost use Rattle.board_rule.specs.buffers.ReaderSteps.{LowersReaders, readers_lowered, samples_read, StoresNeed, need_stored};

use crate::board::Board;

/// A seat at a board. `is_driver` is true for the driver's, whose node no other seat has;
/// `table` is the board that the seat belongs to, and `knows` what it knows, its number among other
/// things. Each step is one sequentially consistent operation on one word; it takes no memory, does
/// not wait and does not fail. Nodes are given by their numbers.
pub trait BoardSeat {
    ghost is_driver: { Bool };

    ghost table: { Self → TableId };

    ghost knows: { Self → View };

    /// How many cycles of the epoch the node has ended; on the driver's seat, how many the seat has
    /// ended.
    fn ended(&self, board: &Board, node: u32) -> u32
        requires node { let p = layout board.now in
            IsMember is_driver p (knows self.now) (p.index node) }
        ensures { let p = layout board.now in
            first p + result ≡ cycle_of is_driver (knows self.now) (p.index node) };

    /// The bits of the nodes whose pending word the seat's last begin or finish has taken to 0.
    fn woke(&self) -> u64
        ensures { result ≡ woke_of (knows self.now).trail.told };

    /// Lowers the next target of the node, and answers the pending word that it found. Where that
    /// was 1, the seat owes the target its trigger.
    fn lower_pending(&mut self, board: &Board, node: u32) -> u64
        requires table { IsOn board.now (table self.old) }
        requires phase { let p = layout board.now in
            Lowers is_driver p (knows self.old) (p.index node) }
        ensures table { table self.new ≡ table self.old }
        ensures knows { let p = layout board.now in
            knows self.new ≡ lowered is_driver p (knows self.old) (p.index node) result }
        ensures word { 0 < result };

    /// Stores TRIGGERED of its cycle in the status word of the target that is owed.
    fn store_triggered(&mut self, board: &Board, node: u32)
        requires table { IsOn board.now (table self.old) }
        requires phase { let p = layout board.now in
            Triggers is_driver p (knows self.old) (p.index node) }
        ensures table { table self.new ≡ table self.old }
        ensures knows { let p = layout board.now in
            knows self.new ≡ triggered is_driver p (knows self.old) (p.index node) };

    /// Exchanges TRIGGERED of the node's cycle for AWAKE, and answers the status word that it
    /// found.
    fn exchange_awake(&mut self, board: &Board, node: u32) -> u64
        requires table { IsOn board.now (table self.old) }
        requires phase { let p = layout board.now in
            Claims is_driver p (knows self.old) (p.index node) }
        ensures table { table self.new ≡ table self.old }
        ensures knows { let p = layout board.now in
            knows self.new ≡ claimed is_driver p (knows self.old) (p.index node) result };

    /// Stores FINISHED of its cycle in the status word of the node.
    fn store_finished(&mut self, board: &Board, node: u32)
        requires table { IsOn board.now (table self.old) }
        requires phase { let p = layout board.now in
            IsReadyToFinish is_driver p (knows self.old) (p.index node) }
        ensures table { table self.new ≡ table self.old }
        ensures knows { let p = layout board.now in
            knows self.new ≡ finished is_driver (knows self.old) (p.index node) };

    /// Draws the ticket of the node's Start or Finish; on the driver's seat also of a Begin, a Tick
    /// or an End.
    fn draw_ticket(&mut self, board: &Board, node: u32) -> u64
        requires table { IsOn board.now (table self.old) }
        requires phase { let p = layout board.now in
            Draws is_driver p (knows self.old) (p.index node) }
        ensures table { table self.new ≡ table self.old }
        ensures knows { let p = layout board.now in
            knows self.new ≡ draws is_driver (knows self.old) (p.index node) result }
        ensures word { result < event_count board.now.board_shape.shape };

    /// Stores the event whose ticket is held in the word of that ticket.
    fn store_event(&mut self, board: &Board, node: u32)
        requires table { IsOn board.now (table self.old) }
        requires phase { let p = layout board.now in
            StoresEvent is_driver p (knows self.old) (p.index node) }
        ensures table { table self.new ≡ table self.old }
        ensures knows { let p = layout board.now in
            knows self.new ≡ event_stored is_driver (knows self.old) (p.index node) };

    /// The number of the block that the reader's load of this cycle found in the area of a link.
    /// Takes no memory.
    fn loaded(&self, board: &Board, link: u32) -> u32
        requires turn { IsReading is_driver (layout board.now) (knows self.now) link
            (read_of (knows self.now) link).id }
        ensures { result ≡ (read_of (knows self.now) link).id };

    /// Loads the area of a link whose reader works, once in its cycle. The word has data; its
    /// number is that of the block of the link's pool whose reading cycle this is.
    fn load_io_as_reader(&mut self, board: &Board, link: u32) -> u64
        requires table { IsOn board.now (table self.old) }
        requires phase { LoadsAsReader is_driver (layout board.now) (knows self.old) link }
        ensures table { table self.new ≡ table self.old }
        ensures knows { knows self.new ≡ loaded_as_reader is_driver (layout board.now)
            (knows self.old) link result }
        ensures word { IsPublished is_driver (layout board.now) (knows self.old) link result };

    /// Loads a sample word of the block that the reader has in its turn and has not lowered: four
    /// of the samples that are expected. The words before it are loaded already. `first` is where
    /// the first sample word of the block is (`Board::first_sample`). The seat's table of
    /// samples has one quantum of 16-bit samples for each cycle and pool.
    fn load_sample_at(&mut self, board: &Board, link: u32, id: u32, place: u32, first: usize) -> u64
        requires table { IsOn board.now (table self.old) }
        requires phase { LoadsSample is_driver (layout board.now) (knows self.old) link id place }
        requires place { let p = layout board.now in place < (pool_at p (pool_of p link)).words }
        requires first { first ≡ sample_place board.now.board_shape.shape
            (pool_of (layout board.now) link) id 0 }
        ensures table { table self.new ≡ table self.old }
        ensures knows { knows self.new
            ≡ sample_loaded is_driver (layout board.now) (knows self.old) link place }
        ensures word { result ≡ packed
            (samples_read is_driver (layout board.now) (knows self.old) link) place }
        ensures samples { IsTable (layout board.now) (knows self.old).expect };

    /// Lowers the readers word of that block, all of whose sample words are loaded, by one, and
    /// answers what it found.
    fn lower_readers(&mut self, board: &Board, link: u32, id: u32) -> u64
        requires table { IsOn board.now (table self.old) }
        requires phase { LowersReaders is_driver (layout board.now) (knows self.old) link id }
        ensures table { table self.new ≡ table self.old }
        ensures knows { knows self.new
            ≡ readers_lowered is_driver (layout board.now) (knows self.old) link }
        ensures word { 0 < result };

    /// Stores NEED_DATA with the number of that block once it is lowered, which ends the reader's
    /// turn.
    fn store_need_data(&mut self, board: &Board, link: u32, id: u32)
        requires table { IsOn board.now (table self.old) }
        requires phase { StoresNeed is_driver (layout board.now) (knows self.old) link id }
        ensures table { table self.new ≡ table self.old }
        ensures knows { knows self.new
            ≡ need_stored is_driver (layout board.now) (knows self.old) link };
}
