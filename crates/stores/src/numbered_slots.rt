//! Slots by rising number, of which some are empty: what is said of them and holds of them, whatever stands in them. The routes
//! of an exporter stand in such slots, and the subscriptions. It has no code.
